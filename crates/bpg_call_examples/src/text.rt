// What an answer begins with.
pub(crate) use bpg_cases::text::{show, show_hex, show_number, show_numbers};

// A label, and the status and a second number of an answer.
pub(crate) fn show_answer(label: &[u8], status: u8, second: usize) {
    show_number(label, status);
    show_number(b" ", second as u64);
}
