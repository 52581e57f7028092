// Runs the head call and the body call for C and Rust and prints a line: status, offset and the list after, which is filled with 99 before.
//
// A case of the head call is the length of the list, and a file; one of the body call the lengths of the head's list and of the record's, the numbers of
// the former in eight bytes each, and a file.
use crate::lists::{byte, list};
use crate::text;

// More than a head and a record have.
const HEAD: usize = 14;

const RECORD: usize = 120;

fn show_answer(label: &[u8], status: u8, offset: usize, numbers: &[u64]) {
    text::show_number(label, status as u64);
    text::show_number(b" at ", offset as u64);
    text::show_numbers(numbers);
    text::show(b"\n");
}

fn show_head_in(file: &[u8], numbers: &mut [u64]) {
    let mut offset: usize = 9;
    let status = bpg_export::bpg_head(file, numbers, &mut offset);
    show_answer(b"list ", status, offset, numbers);
}

pub(crate) fn show_head(s: &[u8]) {
    let size = byte(s, 0) as usize;
    let mut numbers = [99u64; HEAD];
    if s.len() < 1 {
        return;
    }
    if size <= HEAD {
        show_head_in(&s[1..], &mut numbers[0..size]);
    }
}

fn show_body_in(head: &[u64], file: &[u8], numbers: &mut [u64]) {
    let mut offset: usize = 9;
    let status = bpg_export::bpg_body(head, file, numbers, &mut offset);
    show_answer(b"body list ", status, offset, numbers);
}

pub(crate) fn show_body(s: &[u8]) {
    let count = byte(s, 0) as usize;
    let size = byte(s, 1) as usize;
    let end = 2 + 8 * count;
    if HEAD < count {
        return;
    }
    if s.len() < end {
        return;
    }
    let mut head = [0u64; HEAD];
    let mut numbers = [99u64; RECORD];
    list(s, &mut head, true);
    if size <= RECORD {
        show_body_in(&head[0..count], &s[end..], &mut numbers[0..size]);
    }
}
