// Runs export and import of JPEG segments over the cases of standard input, and prints a line for each.
//
// A case is a line of hex digits: a byte that says what to run, a size, high byte first, and the bytes to run it on.
//   00  export of a file, 01 import of a run, with a buffer of that many bytes
//   02  export of a file that is made here: a payload of that many bytes, with the first tag, and an empty one with the second; and import of
//       what was exported
#![tactic(auto)]

mod made;
mod runs;

use bpg_cases::{ShowCase, for_each_case};

struct Program;

impl ShowCase for Program {
    // A shorter line prints nothing.
    fn show(&self, case: &[u8]) {
        if case.len() < 3 {
            return;
        }
        let size = usize::from(u16::from_be_bytes([case[1], case[2]]));
        let s = &case[3..];
        match case[0] {
            0 => runs::show_export(s, size),
            1 => runs::show_import(s, size),
            2 => made::show(s, size),
            _ => {}
        }
    }
}

// The input's first 8 chunks of 65,536 bytes: more than the cases take.
fn main() {
    let mut space = io::buffer();
    for_each_case(8, &mut space, &Program);
}
