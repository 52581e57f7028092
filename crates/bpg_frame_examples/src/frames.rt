// The frames of a file: the answer of `frames` and the list after it, which was filled with 9999, then the answer of `frame_count`.
use bpg_cases::text;

// More than the cases take.
const MOST: usize = 64;

fn show_list(list: &[u16]) {
    text::show(b" list");
    text::show_numbers(list);
}

fn show_frames(file: &[u8], list: &mut [u16]) {
    let frames = bpg_frames::frames(file, list);
    text::show_counted(frames.status, frames.offset, frames.count);
    show_list(list);
}

pub(crate) fn show(file: &[u8], size: usize) {
    let mut list = [9999u16; MOST];
    if MOST < size {
        return;
    }
    show_frames(file, &mut list[0..size]);
    text::show(b" | ");
    let counted = bpg_frames::frame_count(file);
    text::show_counted(counted.status, counted.offset, counted.count);
    text::show(b"\n");
}
