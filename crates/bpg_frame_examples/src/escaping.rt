// Emulation prevention: the answer, and the buffer after it, which was filled with a5.
use bpg_cases::text;
use bpg_format::Written;

// More than the cases take.
const MOST: usize = 1024;

fn show_answer(written: Written, out: &[u8]) {
    text::show_counted(written.status, written.offset, written.count);
    text::show(b" buffer ");
    text::show_bytes(out);
    text::show(b"\n");
}

// The call on bytes and a buffer of this size.
fn show_call<F: Fn(&[u8], &mut [u8]) -> Written>(bytes: &[u8], size: usize, call: F)
    requires { F.IsAlwaysCallable call }
{
    let mut space = [0xa5u8; MOST];
    if size <= MOST {
        let written = call(bytes, &mut space[..size]);
        show_answer(written, &space[..size]);
    }
}

pub(crate) fn show_unescaped(unit: &[u8], size: usize) {
    show_call(unit, size, |unit, out| bpg_nal_escape::unescape(unit, out));
}

pub(crate) fn show_escaped(bytes: &[u8], size: usize) {
    show_call(bytes, size, |bytes, out| bpg_nal_escape::escape(bytes, out));
}
