// Runs the calls on samples over the cases of standard input, and prints a line for each: the answer, and the buffers after it, which were filled
// with 7777.
//
// A case is a line of hex digits: a byte that says what to run, the depth, how long each of four planes and of four buffers is, and the planes'
// samples of two bytes, high byte first. A call takes as many planes and buffers as it has; the others are empty.
//   00  unpremultiply, 01 cmyk, 02 default_from_white, 03 ycgco, 04 limited_luma (whose depth is not looked at)
// `#` begins a comment; other characters are skipped.
#![tactic(auto)]

mod calls;
mod cases;

use bpg_cases::{ShowCase, for_each_case};

struct Program;

impl ShowCase for Program {
    fn show(&self, case: &[u8]) {
        cases::show(case);
    }
}

// The input's first 4 chunks of 65,536 bytes: more than the cases take.
fn main() {
    let mut space = io::buffer();
    for_each_case(4, &mut space, &Program);
}
