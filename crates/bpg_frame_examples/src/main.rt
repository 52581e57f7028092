// Runs the calls on frames and on emulation prevention over the cases of standard input, and prints a line for each.
//
// A case is a line of hex digits: a byte that says what to run, a size, high byte first, and the bytes to run it on.
//   00  frames, with a list of that many durations; then frame_count
//   01  unescape, 02 escape, with a buffer of that many bytes
#![tactic(auto)]

mod escaping;
mod frames;

use bpg_cases::{ShowCase, for_each_case};

struct Program;

impl ShowCase for Program {
    // A shorter line prints nothing.
    fn show(&self, case: &[u8]) {
        if case.len() < 3 {
            return;
        }
        let size = usize::from(u16::from_be_bytes([case[1], case[2]]));
        let s = &case[3..];
        match case[0] {
            0 => frames::show(s, size),
            1 => escaping::show_unescaped(s, size),
            2 => escaping::show_escaped(s, size),
            _ => {}
        }
    }
}

// The input's first 8 chunks of 65,536 bytes: more than the cases take.
fn main() {
    let mut space = io::buffer();
    for_each_case(8, &mut space, &Program);
}
