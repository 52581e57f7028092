// Takes a cursor over the entries of a file and prints a line: the file, and 66 answers of the cursor, two more than a file has entries.
use bpg_bytes::BytePos;
use bpg_cases::text;
use bpg_format::Entry;

fn show_entry(entry: Entry) {
    text::show_number(b" ", entry.tag);
    text::show_number(b"@", entry.payload.start);
    text::show_number(b"+", entry.payload.length);
    text::show_number(b"#", entry.tag_offset);
}

fn show_answer(answer: Option<Entry>) {
    match answer {
        Some(entry) => show_entry(entry),
        None => text::show(b" -"),
    }
}

// The 65 answers after the first, of a cursor that then stands at `at`.
fn show_rest(region: &[u8], at: BytePos) {
    let mut next = at;
    for _ in 0..65 {
        let step = bpg_cursor::resume(region, next);
        let answer = step.answer;
        show_answer(answer);
        next = step.next;
    }
}

pub(crate) fn show(file: &[u8]) {
    text::show_hex(file);
    let first = bpg_cursor::first(file);
    let answer = first.answer;
    show_answer(answer);
    let bounds = bpg_parts::block_bounds(file);
    show_rest(bpg_cursor::region_to(file, bounds.end), first.next);
    text::show(b"\n");
}
