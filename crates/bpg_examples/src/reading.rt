// Reads a file and prints a line: the file, the line of its reading, and, where it is accepted, the rest of its record and the
// coded size; then the parts of the file that are handed out.
use crate::{fields, parts};
use bpg_cases::text;
use bpg_format::Reading;
use bpg_show_line::line;

// The first bytes of a buffer.
fn show_first(s: &[u8], count: usize) {
    if count <= s.len() {
        text::show(&s[0..count]);
    }
}

// The line of a reading, without the newline.
fn show_line(reading: Reading) {
    let mut space = [0u8; 160];
    let n = line::write(reading, &mut space);
    if 0 < n {
        show_first(&space, n - 1);
    }
}

fn show_reading(reading: Reading) {
    text::show(b" ");
    show_line(reading);
    if reading.status == 0 {
        fields::show(reading);
    }
}

pub(crate) fn show(file: &[u8]) {
    let reading = bpg_reader::read(file);
    text::show_hex(file);
    show_reading(reading);
    parts::show(file, reading.record.entry_count as usize);
    text::show(b"\n");
}
