// A case: the call's arguments are taken out of its bytes.
use crate::numbers::{number2, number4, number8, read_list};
use bpg_cases::text;

// More than the cases take.
const MOST: usize = 300;

// What each answer ends with.
fn show_answer(frame: u32, ended: bool) {
    text::show_number(b" frame ", frame);
    text::show_number(b" ended ", ended);
    text::show(b"\n");
}

// The durations are read into the list that is lent.
fn show_read(s: &[u8], tail: &[u8], durations: &mut [u16]) {
    read_list(tail, durations);
    let answer = loop_player::frame_at(
        number2(s, 0),
        number2(s, 2),
        number2(s, 4),
        durations,
        number8(s, 6),
    );
    text::show_number(b"", answer.status as u64);
    show_answer(answer.frame, answer.ended);
}

fn show_frame(s: &[u8]) {
    if s.len() < 14 {
        return;
    }
    let many = (s.len() - 14) / 2;
    if MOST < many {
        return;
    }
    let mut space = [0u16; MOST];
    show_read(s, &s[14..], &mut space[0..many]);
}

fn show_ticks(s: &[u8]) {
    let answer = loop_player::ticks(number4(s, 0), number2(s, 4), number2(s, 6));
    text::show_number(b"", answer.status as u64);
    text::show_number(b" ticks ", answer.ticks);
    text::show(b"\n");
}

fn show_time(s: &[u8]) {
    if s.len() < 4 {
        return;
    }
    let shown = loop_player_file::frame_at_time(&s[4..], number4(s, 0));
    text::show_answer(shown.status, shown.offset);
    show_answer(shown.frame, shown.ended);
}

fn show_call(call: u8, s: &[u8]) {
    match call {
        0 => show_frame(s),
        1 => show_ticks(s),
        _ => show_time(s),
    }
}

// An empty line prints nothing.
pub(crate) fn show(case: &[u8]) {
    if !case.is_empty() {
        show_call(case[0], &case[1..]);
    }
}
