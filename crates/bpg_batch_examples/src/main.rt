// Runs the batch on the cases of standard input, and prints a line for each: the answer, and the two lists after it, which were filled with
// 99 and with 999.
//
// A case is a line of hex digits: how long the list of statuses is, and that of offsets, how many lengths there are, the lengths of four bytes,
// high byte first, and the buffer. `#` begins a comment; other characters are skipped.
#![tactic(auto)]

mod cases;

use bpg_cases::{ShowCase, for_each_case};

struct Program;

impl ShowCase for Program {
    fn show(&self, case: &[u8]) {
        cases::show(case);
    }
}

// The input's first 4 chunks of 65,536 bytes: more than the cases take.
fn main() {
    let mut space = io::buffer();
    for_each_case(4, &mut space, &Program);
}
