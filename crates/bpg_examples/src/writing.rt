// Writes a record and prints a line: status, offset and count, and the whole buffer after the call. It is filled with a5 before.
ghost use Rattle.std.specs.Prelude.{◌≡◌, length as count};

use crate::case;
use bpg_cases::text;
use bpg_format::{Record, Written};

// More than the cases' buffers take.
const SPACE: usize = 65_536;

// So many that 16 entries over them make a file that is too large.
const ZEROS: usize = 1_100_000;

fn zeros() -> [u8; ZEROS]
    ensures { 1100000 ≡ count result }
{
    [0; ZEROS]
}

// An answer, and the buffer after the call.
pub(crate) fn show_answer(label: &[u8], answer: Written, out: &[u8]) {
    text::show_number(label, answer.status as u64);
    text::show_number(b" ", answer.offset as u64);
    text::show_number(b" ", answer.count as u64);
    text::show(b" ");
    text::show_hex(out);
}

fn show_written(record: Record, source: &[u8], out: &mut [u8]) {
    let answer = bpg_writer::write(record, source, out);
    show_answer(b"", answer, out);
    text::show(b"\n");
}

// The first bytes of the space are the buffer.
fn show_record(record: Record, source: &[u8], size: usize) {
    let mut space = [0xa5u8; SPACE];
    if size <= SPACE {
        show_written(record, source, &mut space[0..size]);
    }
}

// The first of the zeros are the source.
fn show_first_zeros(record: Record, space: &[u8], length: usize, size: usize) {
    if length <= space.len() {
        show_record(record, &space[0..length], size);
    }
}

fn show_zeros(record: Record, length: usize, size: usize) {
    let space = zeros();
    show_first_zeros(record, &space, length, size);
}

// A case, see `case`.
pub(crate) fn show(s: &[u8]) {
    let source = case::source(s);
    if s.len() < source {
        return;
    }
    let record = case::record(s);
    let size = case::size(s);
    let length = case::zeros(s);
    if 0 < length {
        return show_zeros(record, length, size);
    }
    show_record(record, &s[source..], size);
}
