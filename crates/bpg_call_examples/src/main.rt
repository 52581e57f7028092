// Runs the calls for C and Rust on the cases of standard input and prints a line for each.
//
// A case is a line of hex digits: a byte that says what to run, and the bytes to run it on. `#` begins a comment; other characters
// are skipped.
//   00  a file, see `calls`
//   01  a list of numbers to be written, see `lists`
//   02  a file with frames or thumbnails, see `frames`
//   03  bytes with or without emulation prevention, see `escaping`
//   04  a list for a head, and a file, see `heads`
//   05  the list of a head, one for a record, and a file, see `heads`
#![tactic(auto)]

mod calls;
mod escaping;
mod frames;
mod heads;
mod lists;
mod text;

use bpg_cases::{ShowCase, for_each_case};

struct Program;

impl ShowCase for Program {
    fn show(&self, s: &[u8]) {
        if s.is_empty() {
            return;
        }
        match s[0] {
            0 => calls::show(&s[1..]),
            1 => lists::show(&s[1..]),
            2 => frames::show(&s[1..]),
            3 => escaping::show(&s[1..]),
            4 => heads::show_head(&s[1..]),
            5 => heads::show_body(&s[1..]),
            _ => {}
        }
    }
}

// The input's first 65,536 bytes: more than the cases take.
fn main() {
    let mut space = io::buffer();
    for_each_case(1, &mut space, &Program);
}
