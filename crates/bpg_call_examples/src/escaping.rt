// Runs the calls for C and Rust on emulation prevention on bytes and prints a line: the bytes; status, count and buffer of undoing it, and
// of redoing it, for a buffer of eight bytes, and for one of two, filled with a5 before.
use crate::text;

fn show_undone(unit: &[u8], out: &mut [u8]) {
    let mut count: usize = 9;
    let status = bpg_export::bpg_unescape(unit, out, &mut count);
    text::show_answer(b" | undone ", status, count);
    text::show(b" ");
    text::show_hex(out);
}

fn show_redone(bytes: &[u8], out: &mut [u8]) {
    let mut count: usize = 9;
    let status = bpg_export::bpg_escape(bytes, out, &mut count);
    text::show_answer(b" | redone ", status, count);
    text::show(b" ");
    text::show_hex(out);
}

pub(crate) fn show(bytes: &[u8]) {
    text::show_hex(bytes);
    let mut undone = [0xa5u8; 8];
    show_undone(bytes, &mut undone);
    let mut undone_short = [0xa5u8; 2];
    show_undone(bytes, &mut undone_short);
    let mut redone = [0xa5u8; 8];
    show_redone(bytes, &mut redone);
    let mut redone_short = [0xa5u8; 2];
    show_redone(bytes, &mut redone_short);
    text::show(b"\n");
}
