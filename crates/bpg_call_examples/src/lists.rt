// Writes a record given as a list of numbers and prints a line: status and count of the call for C and Rust, and the buffer after, which
// is filled with a5 before; status and count of the call for the size.
//
// A case is the length of the list in two bytes, its numbers in five bytes each, the size of the buffer, and the source.
ghost use Rattle.std.specs.Prelude.{◌≤◌, length};

use crate::text;

// More than a list has.
const NUMBERS: usize = 400;

// What is missing counts as 0.
pub(crate) fn byte(s: &[u8], at: usize) -> u8 {
    if at < s.len() {
        return s[at];
    }
    0
}

// Four bytes, the high byte first.
fn four_bytes(s: &[u8], at: usize) -> u32
    requires { at ≤ 3300 }
{
    let high = byte(s, at) as u32 * 256 + byte(s, at + 1) as u32;
    high * 65_536 + (byte(s, at + 2) as u32 * 256 + byte(s, at + 3) as u32)
}

// Number k of a list, which begins after two bytes: eight bytes, or five.
fn number(s: &[u8], k: usize, is_long: bool) -> u64
    requires { k ≤ 400 }
{
    if is_long {
        let high = four_bytes(s, 2 + 8 * k) as u64;
        return high * 4_294_967_296 + four_bytes(s, 6 + 8 * k) as u64;
    }
    let high = byte(s, 2 + 5 * k) as u64;
    high * 4_294_967_296 + four_bytes(s, 3 + 5 * k) as u64
}

pub(crate) fn list(s: &[u8], numbers: &mut [u64], is_long: bool)
    requires { length numbers.old ≤ 400 }
{
    for k in 0..numbers.len() {
        numbers[k] = number(s, k, is_long);
    }
}

fn show_written(numbers: &[u64], source: &[u8], out: &mut [u8]) {
    let mut count: usize = 9;
    let status = bpg_export::bpg_write(numbers, source, out, &mut count);
    text::show_answer(b"", status, count);
    text::show(b" ");
    text::show_hex(out);
}

fn show_size(numbers: &[u64], source: &[u8]) {
    let mut count: usize = 9;
    let status = bpg_export::bpg_write_size(numbers, source, &mut count);
    text::show_answer(b" | size ", status, count);
}

// The first bytes of the space are the buffer.
fn show_list(numbers: &[u64], source: &[u8], size: usize) {
    let mut space = [0xa5u8; 256];
    if size <= 256 {
        show_written(numbers, source, &mut space[0..size]);
        show_size(numbers, source);
        text::show(b"\n");
    }
}

fn show_first(numbers: &[u64], count: usize, source: &[u8], size: usize) {
    if count <= numbers.len() {
        show_list(&numbers[0..count], source, size);
    }
}

pub(crate) fn show(s: &[u8]) {
    let count = byte(s, 0) as usize * 256 + byte(s, 1) as usize;
    let end = 2 + 5 * count;
    if s.len() <= end {
        return;
    }
    let mut numbers = [0u64; NUMBERS];
    list(s, &mut numbers, false);
    show_first(&numbers, count, &s[end + 1..], byte(s, end) as usize);
}
