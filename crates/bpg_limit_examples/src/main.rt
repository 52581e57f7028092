// Reads files of zeros, about as long as a file may be, and prints a line for each: its length, and the line of its reading.
// The lengths are the lines of standard input.
//
// Such a file is longer than the stack: the zeros stand on the heap, once for all lengths.
#![tactic(auto)]

ghost use Rattle.std.specs.Prelude.{◌≡◌, IfOk, vec_len};

use bpg_format::Reading;
use bpg_show_line::line;
use std::alloc::{AllocError, Global};

// A little more than a file may have.
const SPACE: usize = 16_777_300;

fn zeros(alloc: Global) -> Result<Vec<u8>, AllocError>
    ensures { IfOk result (λ space. 16777300 ≡ vec_len space) }
{
    vec![in alloc; 0; SPACE]
}

// The first bytes of a buffer.
fn show_first(s: &[u8], n: usize) {
    if n <= s.len() {
        io::write_all(1, &s[0..n]);
    }
}

fn show_reading(reading: Reading) {
    let mut text = [0u8; 160];
    let n = line::write(reading, &mut text);
    show_first(&text, n);
}

// The first bytes of the space are the file.
fn show_file(space: &[u8], length: usize) {
    if space.len() < length {
        return;
    }
    let reading = bpg_reader::read(&space[0..length]);
    io::print_decimal(1, length as u64);
    io::write_all(1, b" ");
    show_reading(reading);
}

// A length with one more digit, of which the last nine are kept.
fn lengthened(length: usize, c: u8) -> usize {
    length % 100_000_000 * 10 + (c % 16) as usize
}

fn show_lengths(space: &[u8], s: &[u8]) {
    let mut size = 0;
    for c in s {
        if *c == b'\n' {
            show_file(space, size);
            size = 0;
        } else {
            size = lengthened(size, *c);
        }
    }
}

fn main(rt: HostRuntime) -> Result<(), AllocError> {
    let mut text = io::large_buffer();
    let n = io::read_full(0, &mut text);
    let space = zeros(rt.alloc())?;
    show_lengths(&space, &text[..n]);
    Ok(())
}
