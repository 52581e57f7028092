// Counts the parts of the files of standard input, and prints a line for each: status and offset, and the five counts.
//
// A case is a line of hex digits: the byte 00, and the file. `#` begins a comment; other characters are skipped.
#![tactic(auto)]

use bpg_cases::{ShowCase, for_each_case, text};

fn show_partition(file: &[u8]) {
    let partition = bpg_partition::partition(file);
    text::show_answer(partition.status, partition.offset);
    text::show_number(b" head ", partition.head as u64);
    text::show_number(b" entry heads ", partition.entry_heads as u64);
    text::show_number(b" payloads ", partition.payloads as u64);
    text::show_number(b" headers ", partition.headers as u64);
    text::show_number(b" data ", partition.data as u64);
    text::show(b"\n");
}

struct Program;

impl ShowCase for Program {
    fn show(&self, s: &[u8]) {
        if !s.is_empty() && s[0] == 0 {
            show_partition(&s[1..]);
        }
    }
}

// The input's first 4 chunks of 65,536 bytes: more than the cases take.
fn main() {
    let mut space = io::buffer();
    for_each_case(4, &mut space, &Program);
}
