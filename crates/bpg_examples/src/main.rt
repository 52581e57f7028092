// Runs the library on the cases of standard input and prints a line for each.
//
// A case is a line of hex digits: a byte that says what to run, and the bytes to run it on. `#` begins a comment; other characters
// are skipped.
//   00 to 05  a number code, see `numbers`       07  writing a record, see `case`
//   06        reading a file, and its parts      08  canonicalizing a file
//                                                09  the entries of a file, by the cursor
//   0a        a file: its head                   0b  a head, see `case`, and a file: the body
#![tactic(auto)]

mod canonical;
mod case;
mod cursor;
mod fields;
mod heads;
mod numbers;
mod parts;
mod reading;
mod writing;

use bpg_cases::{ShowCase, for_each_case};

struct Program;

impl ShowCase for Program {
    fn show(&self, s: &[u8]) {
        if s.is_empty() {
            return;
        }
        match s[0] {
            0..=5 => numbers::show(s),
            6 => reading::show(&s[1..]),
            7 => writing::show(&s[1..]),
            8 => canonical::show(&s[1..]),
            9 => cursor::show(&s[1..]),
            10 => heads::show_head(&s[1..]),
            11 => heads::show_body(&s[1..]),
            _ => {}
        }
    }
}

// The input's first 40 chunks of 65,536 bytes: more than the cases take. The longest line has 17,253 bytes.
fn main() {
    let mut space = io::large_buffer();
    for_each_case(40, &mut space, &Program);
}
