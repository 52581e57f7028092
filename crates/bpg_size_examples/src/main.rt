// Runs the sizing calls on the cases of standard input, and prints a line for each, an answer being status, offset and count.
//
// A case is a line of hex digits. `#` begins a comment; other characters are skipped.
//   00, a file: the size of its canonical form, the answer of canonicalizing into a buffer of just that size, and the size of its record's file
//   01, an entry count, a payload's length and the data's of four bytes, high byte first, a file: the size of the file of its record with so
//       many entries of that length, and with that data, over zeros
#![tactic(auto)]

ghost use Rattle.std.specs.Prelude.{◌≡◌, length as count};

use bpg_cases::{ShowCase, bytes_at, for_each_case, text};
use bpg_format::{Entry, MAX_ENTRIES, Range, Record, Written};

// So many that 64 entries over them make a file that is too long.
const ZEROS: usize = 1_100_000;

fn zeros() -> [u8; ZEROS]
    ensures { 1100000 ≡ count result }
{
    [0; ZEROS]
}

fn show_answer(answer: Written) {
    text::show_number(b"", answer.status);
    text::show_number(b" ", answer.offset as u64);
    text::show_number(b" ", answer.count as u64);
}

// Canonicalizes into a buffer of this size.
fn show_canonicalized(file: &[u8], size: usize) {
    let mut space = [0u8; 1024];
    if size <= 1024 {
        show_answer(bpg_canonical::canonicalize(file, &mut space[0..size]));
    }
}

fn show_sizes(file: &[u8]) {
    let size = bpg_canonical::size(file);
    show_answer(size);
    text::show(b" | ");
    show_canonicalized(file, size.count);
    text::show(b" | ");
    let reading = bpg_reader::read(file);
    let record = reading.record;
    show_answer(bpg_writer::size(record, file));
    text::show(b"\n");
}

// All entries are alike, whatever their count.
fn changed(record: Record, entry_count: u8, payload: u32, data: u32) -> Record {
    let entry = Entry {
        tag: 1,
        payload: Range {
            start: 0,
            length: payload,
        },
        tag_offset: 0,
    };
    Record {
        extension_present_flag: true,
        entry_count: u32::from(entry_count),
        entries: [entry; MAX_ENTRIES],
        data: Range {
            start: 0,
            length: data,
        },
        ..record
    }
}

fn show_changed(s: &[u8]) {
    if s.len() < 9 {
        return;
    }
    let payload = u32::from_be_bytes(bytes_at(s, 1));
    let data = u32::from_be_bytes(bytes_at(s, 5));
    let reading = bpg_reader::read(&s[9..]);
    let record = changed(reading.record, s[0], payload, data);
    let source = zeros();
    show_answer(bpg_writer::size(record, &source));
    text::show(b"\n");
}

struct Program;

impl ShowCase for Program {
    fn show(&self, s: &[u8]) {
        if s.is_empty() {
            return;
        }
        match s[0] {
            0 => show_sizes(&s[1..]),
            1 => show_changed(&s[1..]),
            _ => {}
        }
    }
}

// The input's first 65,536 bytes: more than the cases take.
fn main() {
    let mut space = io::buffer();
    for_each_case(1, &mut space, &Program);
}
