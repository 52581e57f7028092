// A case: the lengths and the buffer are taken out of its bytes.
use bpg_cases::{bytes_at, text};

// More than the cases take.
const MOST: usize = 64;

fn show_batch(buffer: &[u8], lengths: &[u32], statuses: &mut [u8], offsets: &mut [u32]) {
    let written = bpg_batch::batch(buffer, lengths, statuses, offsets);
    text::show_counted(written.status, written.offset, written.count);
    text::show(b" statuses");
    text::show_numbers(statuses);
    text::show(b" offsets");
    text::show_numbers(offsets);
    text::show(b"\n");
}

// With lists of these lengths.
fn show_lists(buffer: &[u8], lengths: &[u32], statuses: usize, offsets: usize) {
    let mut status_space = [99u8; MOST];
    let mut offset_space = [999u32; MOST];
    if MOST < statuses || MOST < offsets {
        return;
    }
    show_batch(
        buffer,
        lengths,
        &mut status_space[0..statuses],
        &mut offset_space[0..offsets],
    );
}

// Lengths of four bytes; 0 past the end.
fn read_lengths(s: &[u8], lengths: &mut [u32]) {
    for (k, length) in lengths.iter_mut().enumerate() {
        *length = u32::from_be_bytes(bytes_at(s, k * 4));
    }
}

// The lengths are read into the list that is lent.
fn show_read(s: &[u8], buffer: &[u8], lengths: &mut [u32], statuses: u8, offsets: u8) {
    read_lengths(s, lengths);
    show_lists(buffer, lengths, statuses as usize, offsets as usize);
}

// The lengths, and the buffer after them.
fn show_case(s: &[u8], statuses: u8, offsets: u8, lengths: u8) {
    let many = lengths as usize;
    let start = many * 4;
    if MOST < many {
        return;
    }
    if s.len() < start {
        return;
    }
    let mut space = [0u32; MOST];
    show_read(
        &s[0..start],
        &s[start..],
        &mut space[0..many],
        statuses,
        offsets,
    );
}

// A shorter line prints nothing.
pub(crate) fn show(case: &[u8]) {
    if case.len() < 3 {
        return;
    }
    show_case(&case[3..], case[0], case[1], case[2]);
}
