// Canonicalizes a file and prints a line: the file, then the answers and the buffers after, for a buffer of exactly the size of the
// canonical form, one a byte smaller, and a larger one with other contents.
use crate::writing;
use bpg_cases::text;

// The size of the canonical form, by a call with more space than the cases take; a refused file's own size.
fn canonical_size(file: &[u8]) -> usize {
    let mut space = [0u8; 1024];
    let written = bpg_canonical::canonicalize(file, &mut space);
    if written.status == 0 {
        written.count
    } else {
        file.len()
    }
}

// The answer for a buffer, and the buffer after.
fn show_answer(file: &[u8], out: &mut [u8]) {
    let answer = bpg_canonical::canonicalize(file, out);
    writing::show_answer(b" | ", answer, out);
}

// A buffer of this size that holds the same byte throughout.
fn show_buffer(file: &[u8], size: usize, fill: u8) {
    let mut space = [fill; 1024];
    if size <= 1024 {
        show_answer(file, &mut space[0..size]);
    }
}

// An empty file has no smaller buffer.
fn show_buffers(file: &[u8], size: usize) {
    show_buffer(file, size, 0xa5);
    if 0 < size {
        show_buffer(file, size - 1, 0xa5);
    }
    if size < 1024 {
        show_buffer(file, size + 7, 0x5a);
    }
}

pub(crate) fn show(file: &[u8]) {
    text::show_hex(file);
    show_buffers(file, canonical_size(file));
    text::show(b"\n");
}
