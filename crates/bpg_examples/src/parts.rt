// Prints the parts of a file that the library hands out: the payloads, that of the index past the last among them, and the data.
use bpg_cases::text;

pub(crate) fn show(file: &[u8], count: usize) {
    text::show(b" payloads");
    for k in 0..65 {
        if k <= count {
            text::show(b" ");
            text::show_hex(bpg_parts::payload(file, k));
        }
    }
    text::show(b" data ");
    text::show_hex(bpg_parts::data(file));
}
