// Runs the calls for C and Rust on a file and prints a line: the file; status, offset and list of reading it, for a list of two numbers
// more than the longest has, and for one that has room for no entry; whether there is an entry, tag, range and tag offset, for 66 indices;
// status, offset, count and buffer of canonicalizing it, for a buffer as long as the file, and for one of eight bytes; status, offset and count of
// its size. Lists are filled with 9 before, and buffers with a5.
use crate::text;

fn show_read(file: &[u8], numbers: &mut [u64]) {
    let mut offset: usize = 9;
    let status = bpg_export::bpg_read(file, numbers, &mut offset);
    text::show_answer(b" | read ", status, offset);
    text::show_numbers(numbers);
}

fn show_entry(file: &[u8], k: usize) {
    let mut tag: u32 = 9;
    let mut start: u32 = 9;
    let mut length: u32 = 9;
    let mut tag_offset: u32 = 9;
    if bpg_export::bpg_entry(file, k, &mut tag, &mut start, &mut length, &mut tag_offset) {
        text::show(b" +");
    } else {
        text::show(b" -");
    }
    text::show_number(b"", tag as u64);
    text::show_number(b"@", start as u64);
    text::show_number(b"+", length as u64);
    text::show_number(b"#", tag_offset as u64);
}

fn show_entries(file: &[u8]) {
    text::show(b" | entries");
    for k in 0..66 {
        show_entry(file, k);
    }
}

fn show_canonical(file: &[u8], out: &mut [u8]) {
    let mut count: usize = 9;
    let mut offset: usize = 9;
    let status = bpg_export::bpg_canonicalize(file, out, &mut count, &mut offset);
    text::show_answer(b" | canonical ", status, offset);
    text::show_number(b" ", count as u64);
    text::show(b" ");
    text::show_hex(out);
}

fn show_canonical_in(file: &[u8], size: usize) {
    let mut space = [0xa5u8; 1024];
    if size <= 1024 {
        show_canonical(file, &mut space[0..size]);
    }
}

fn show_size(file: &[u8]) {
    let mut count: usize = 9;
    let mut offset: usize = 9;
    let status = bpg_export::bpg_canonical_size(file, &mut count, &mut offset);
    text::show_answer(b" | size ", status, offset);
    text::show_number(b" ", count as u64);
}

pub(crate) fn show(file: &[u8]) {
    let mut longer = [9u64; 327];
    let mut shorter = [9u64; 71];
    text::show_hex(file);
    show_read(file, &mut longer);
    show_read(file, &mut shorter);
    show_entries(file);
    show_canonical_in(file, file.len());
    show_canonical_in(file, 8);
    show_size(file);
    text::show(b"\n");
}
