// Payloads as long as a segment may hold and a byte longer, in files that are made here: the answer of export, where a run begins and ends, and
// what import gives back.
use crate::runs;
use bpg_bytes::{BytePos, buffer};
use bpg_cases::text;
use bpg_write_ue7::ue7;

// More than a file or a run takes here.
const MOST: usize = 70_000;

// A payload of bytes that differ from their neighbours.
fn fill(payload: &mut [u8]) {
    for k in 0..payload.len() {
        payload[k] = (k % 251) as u8;
    }
}

// Tag, length, payload.
fn write_entry(space: &mut [u8], at: BytePos, tag: u8, payload: &[u8]) -> BytePos {
    let size = payload.len() % 65_536;
    let p = ue7::write(space, at, tag as u32);
    let q = ue7::write(space, p, size as u32);
    buffer::write(space, q, payload)
}

// A file with two entries: the payload with the one tag, and an empty one with the other; the answer is its length.
fn make(space: &mut [u8], tag: u8, empty: u8, payload: &[u8]) -> usize {
    let size = payload.len() % 65_536;
    // 4:2:0, 8 bits, YCbCr, an extension block; width 8, height 542; data to the end of the file
    let head = [0x42, 0x50, 0x47, 0xfb, 0x20, 0x08, 0x08, 0x84, 0x1e, 0x00];
    let tail = [0x03, 0x92, 0x4d, 0x00, 0x26, 0x01];
    let p = buffer::write(space, BytePos(0), &head);
    // the tags have one byte each, the length of the payload three
    let q = ue7::write(space, p, size as u32 + 6);
    let r = write_entry(space, q, tag, payload);
    let s = write_entry(space, r, empty, b"");
    buffer::write(space, s, &tail).0
}

fn show_same(back: &[u8], payload: &[u8]) {
    if back.starts_with(payload) {
        text::show(b" the same");
    }
}

fn show_back(run: &[u8], payload: &[u8]) {
    let mut back = [0xa5u8; MOST];
    let imported = bpg_segment_import::import_segments(run, &mut back);
    text::show(b" back ");
    text::show_answer(imported.status, imported.offset);
    runs::show_lengths(imported);
    show_same(&back, payload);
}

// The first and the last bytes of a run.
fn show_ends(run: &[u8]) {
    let count = run.len();
    if count < 40 {
        return;
    }
    text::show(b" run ");
    text::show_bytes(&run[0..40]);
    text::show(b" .. ");
    text::show_bytes(&run[count - 40..count]);
}

fn show_run(out: &[u8], count: usize, payload: &[u8]) {
    if out.len() < count {
        return;
    }
    show_ends(&out[0..count]);
    show_back(&out[0..count], payload);
}

fn show_file(space: &[u8], size: usize, payload: &[u8]) {
    if space.len() < size {
        return;
    }
    let mut out = [0xa5u8; MOST];
    let written = bpg_segment_export::export_segments(&space[0..size], &mut out);
    text::show_answer(written.status, written.offset);
    text::show_number(b" count ", written.count as u64);
    if written.status == 0 {
        show_run(&out, written.count, payload);
    }
    text::show(b"\n");
}

fn show_payload(payload: &[u8], tag: u8, empty: u8) {
    let mut space = [0u8; MOST];
    let size = make(&mut space, tag, empty, payload);
    show_file(&space, size, payload);
}

fn show_filled(payload: &mut [u8], tag: u8, empty: u8) {
    fill(payload);
    show_payload(payload, tag, empty);
}

// The bytes are the two tags.
pub(crate) fn show(s: &[u8], size: usize) {
    if s.len() != 2 {
        return;
    }
    if MOST < size {
        return;
    }
    let mut space = [0u8; MOST];
    show_filled(&mut space[0..size], s[0], s[1]);
}
