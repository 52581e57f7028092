// Emulation prevention redone.
ghost use Rattle.std.specs.Prelude.{◌≡◌, [], ◌∷◌, ◌++◌, ◌+◌, ◌≤◌, length, drop};
ghost use Rattle.bpg_codec.specs.Buffer.{written};
ghost use Rattle.bpg_nal_emulation.specs.Emulation.{escape as escaped};
ghost use Rattle.bpg_nal_escape.specs.Calls.{escape_answer, escape_buffer};
ghost use Rattle.bpg_nal_emulation.specs.Endings.{ends_open};

use bpg_bytes::{BytePos, buffer};
use bpg_format::Written;
use bpg_nal_emulation::pattern;
use bpg_refusal::Reason;

// Whether the bytes end in 00 00.
fn ends_open(bytes: &[u8]) -> bool
    ensures { result ≡ ends_open bytes.now }
{
    bytes.ends_with(&[0, 0])
}

// How many bytes there are with the emulation prevention bytes. A `loop`, since it goes from pattern to pattern.
fn escaped_count(bytes: &[u8]) -> usize
    ensures { result ≡ length (escaped bytes.now) }
{
    let mut marks: usize = 0;
    let mut i: usize = 0;
    loop {
        let at = pattern::next(bytes, BytePos(i)).0;
        if bytes.len() <= at {
            return bytes.len() + marks + usize::from(ends_open(&bytes[i..]));
        }
        marks += 1;
        i = at + 2;
    }
}

// Writes `bytes` and a 03 at `at`, where there is room, and answers the position after them.
fn put_marked(out: &mut [u8], at: BytePos, bytes: &[u8]) -> BytePos
    requires { at.0 + length bytes.now + 1 ≤ length out.old }
    ensures out_after { out.new ≡ written out.old at.0 (bytes.now ++ (3 ∷ [])) }
    ensures result_value { result.0 ≡ at.0 + length bytes.now + 1 }
{
    let mark = buffer::write(out, at, bytes).0;
    out[mark] = 3;
    BytePos(mark + 1)
}

// Writes the bytes with their emulation prevention bytes to the front of `out`, which has room. After the last of them, `marks` in all,
// nothing is looked for.
fn put(bytes: &[u8], marks: usize, out: &mut [u8])
    requires bytes_len { length (escaped bytes.now) ≡ length bytes.now + marks }
    requires bytes_in_bounds { length (escaped bytes.now) ≤ length out.old }
    ensures { out.new ≡ escaped bytes.now ++ drop (length (escaped bytes.now)) out.old }
{
    let mut filled = BytePos(0);
    let mut i: usize = 0;
    for _ in 0..marks {
        let at = pattern::next(bytes, BytePos(i)).0;
        if bytes.len() <= at {
            put_marked(out, filled, &bytes[i..]);
            return;
        }
        filled = put_marked(out, filled, &bytes[i..at + 2]);
        i = at + 2;
    }
    buffer::write(out, filled, &bytes[i..]);
}

// Writes the bytes with their emulation prevention bytes from the start of `out`.
pub fn escape(bytes: &[u8], out: &mut [u8]) -> Written
    ensures value { result ≡ escape_answer bytes.now out.old }
    ensures out_after { out.new ≡ escape_buffer bytes.now out.old }
{
    let count = escaped_count(bytes);
    if out.len() < count {
        return Written::refused(Reason::BufferTooSmall.at(BytePos(0)));
    }
    put(bytes, count - bytes.len(), out);
    Written::of(count)
}
