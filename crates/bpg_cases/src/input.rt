// The cases of standard input. A case is a line of hex digits; `#` begins a comment, and other characters are skipped.
use bpg_hex::HexLine;

// What a program does with a case.
pub trait ShowCase {
    fn show(&self, case: &[u8]);
}

// Shows the bytes of a line, if it has some.
fn show_line<S: ShowCase>(bytes: &[u8], line: HexLine, program: &S) {
    if 0 < line.count && line.count <= bytes.len() {
        program.show(&bytes[..line.count]);
    }
}

// Shows each case in the first chunks of the input, of 65,536 bytes each. `bytes` holds a case; what is longer is cut.
pub fn for_each_case<S: ShowCase>(chunks: usize, bytes: &mut [u8], program: &S) {
    let mut line = bpg_hex::none();
    for _ in 0..chunks {
        let mut space = io::large_buffer();
        let n = io::read_full(0, &mut space);
        for c in &space[..n] {
            if *c == b'\n' {
                show_line(bytes, line, program);
                line = bpg_hex::none();
            } else {
                line = bpg_hex::extend(bytes, line, *c);
            }
        }
    }
}
