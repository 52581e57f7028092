// The head call and the body call: a line for each answer.
use crate::{case, fields};
use bpg_cases::text;
use bpg_format::Record;
use bpg_reader::HeadReading;

// A label, a status and an offset.
fn show_answer(label: &[u8], status: u8, offset: usize) {
    text::show_number(label, status as u64);
    text::show_number(b" at ", offset as u64);
}

fn show_reading(reading: HeadReading) {
    let head = reading.head;
    let numbers = bpg_head_call::call::head_numbers(head);
    show_answer(b"head ", reading.status, reading.offset);
    text::show_numbers(&numbers);
    text::show(b"\n");
}

// The head of a file, and that of its first 27 bytes.
pub(crate) fn show_head(file: &[u8]) {
    let first = file.len().min(27);
    show_reading(bpg_reader::head(file));
    show_reading(bpg_reader::head(&file[0..first]));
}

// The size and the number of entries of the record, and its data's range.
fn show_record(record: Record) {
    let data = record.data;
    text::show_number(b" size ", record.picture_width as u64);
    text::show_number(b"x", record.picture_height as u64);
    text::show_number(b" entries ", record.entry_count as u64);
    fields::show_range(b" data ", data);
}

// The body of a file, given a head.
pub(crate) fn show_body(s: &[u8]) {
    if s.len() < case::HEAD {
        return;
    }
    let given = case::head(s);
    let reading = bpg_reader::body(given, &s[case::HEAD..]);
    let record = reading.record;
    show_answer(b"body ", reading.status, reading.offset);
    show_record(record);
    text::show(b"\n");
}
