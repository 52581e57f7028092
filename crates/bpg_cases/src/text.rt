// Text on standard output.

pub fn show(s: &[u8]) {
    io::write_all(1, s);
}

// A label and a number.
pub fn show_number<T: Into<u64>>(label: &[u8], v: T) {
    show(label);
    io::print_decimal(1, v.into());
}

// A space before each number.
pub fn show_numbers<T: Copy + Into<u64>>(numbers: &[T]) {
    for v in numbers {
        show_number(b" ", *v);
    }
}

// Two digits for each byte.
pub fn show_bytes(bytes: &[u8]) {
    for byte in bytes {
        show(&bpg_hex::digits(*byte));
    }
}

// The same, but no bytes are `-`.
pub fn show_hex(bytes: &[u8]) {
    if bytes.is_empty() {
        show(b"-");
    }
    show_bytes(bytes);
}

// A status and an offset, as most answers begin.
pub fn show_answer(status: u8, offset: usize) {
    show_number(b"", status);
    show_number(b" at ", offset as u64);
}

// The same with a count.
pub fn show_counted(status: u8, offset: usize, count: usize) {
    show_answer(status, offset);
    show_number(b" count ", count as u64);
}
