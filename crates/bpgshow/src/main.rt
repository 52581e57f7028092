// Reads a file from standard input and prints its particulars in one line.
#![tactic(auto)]

// One byte more than is shown, so that a longer file is known for one.
const SPACE: usize = 65_537;

fn show_first(s: &[u8], n: usize) {
    if n <= s.len() {
        io::write_all(1, &s[0..n]);
    }
}

fn show(file: &[u8]) {
    let mut line = [0u8; 160];
    let n = bpg_show_file::write(file, &mut line);
    show_first(&line, n);
}

fn main() {
    let mut space = [0u8; SPACE];
    let n = io::read_full(0, &mut space);
    show(&space[..n]);
}
