// Runs the loop player on the cases of standard input, and prints a line for each: the answer.
//
// A case is a line of hex digits, numbers with their high byte first: 00, loop count and period of two bytes each, tick of eight, and the
// durations of two; 01, milliseconds of four bytes and the period, for ticks; 02, milliseconds and a file. `#` begins a comment; other
// characters are skipped.
#![tactic(auto)]

mod cases;
mod numbers;

use bpg_cases::{ShowCase, for_each_case};

struct Program;

impl ShowCase for Program {
    fn show(&self, case: &[u8]) {
        cases::show(case);
    }
}

// The input's first 4 chunks of 65,536 bytes: more than the cases take.
fn main() {
    let mut space = io::buffer();
    for_each_case(4, &mut space, &Program);
}
