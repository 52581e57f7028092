// Runs the calls for C and Rust on frames and thumbnails on a file and prints a line: the file; status, offset, count and list of its
// frames, for a list of three durations, and for one of one, filled with 9 before; status, offset and count of its frame count; status and
// offset of checking its thumbnails.
use crate::text;

fn show_frames(file: &[u8], durations: &mut [u16]) {
    let mut count: usize = 9;
    let mut offset: usize = 9;
    let status = bpg_export::bpg_frames(file, durations, &mut count, &mut offset);
    text::show_answer(b" | frames ", status, offset);
    text::show_number(b" ", count as u64);
}

fn show_duration(durations: &[u16], k: usize) {
    if k < durations.len() {
        text::show_number(b" ", durations[k] as u64);
    }
}

fn show_three(file: &[u8]) {
    let mut durations = [9u16; 3];
    show_frames(file, &mut durations);
    show_duration(&durations, 0);
    show_duration(&durations, 1);
    show_duration(&durations, 2);
}

fn show_one(file: &[u8]) {
    let mut durations = [9u16; 1];
    show_frames(file, &mut durations);
    show_duration(&durations, 0);
}

fn show_count(file: &[u8]) {
    let mut count: usize = 9;
    let mut offset: usize = 9;
    let status = bpg_export::bpg_frame_count(file, &mut count, &mut offset);
    text::show_answer(b" | count ", status, offset);
    text::show_number(b" ", count as u64);
}

fn show_thumbnails(file: &[u8]) {
    let mut offset: usize = 9;
    let status = bpg_export::bpg_check_thumbnails(file, &mut offset);
    text::show_answer(b" | thumbnails ", status, offset);
}

pub(crate) fn show(file: &[u8]) {
    text::show_hex(file);
    show_three(file);
    show_one(file);
    show_count(file);
    show_thumbnails(file);
    text::show(b"\n");
}
