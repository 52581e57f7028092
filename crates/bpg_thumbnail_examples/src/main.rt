// Runs the deep check on the files of standard input, and prints status and offset of each on a line.
//
// A case is a line of hex digits: the byte 00, and the file. `#` begins a comment; other characters are skipped.
#![tactic(auto)]

use bpg_cases::{ShowCase, for_each_case, text};

fn show_checked(file: &[u8]) {
    let checked = bpg_thumbnails::check_thumbnails(file);
    text::show_answer(checked.status, checked.offset);
    text::show(b"\n");
}

struct Program;

impl ShowCase for Program {
    fn show(&self, s: &[u8]) {
        if !s.is_empty() && s[0] == 0 {
            show_checked(&s[1..]);
        }
    }
}

// The input's first 4 chunks of 65,536 bytes: more than the cases take.
fn main() {
    let mut space = io::buffer();
    for_each_case(4, &mut space, &Program);
}
