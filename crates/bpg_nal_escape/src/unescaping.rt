// Emulation prevention undone.
ghost use Rattle.std.specs.Prelude.{◌≡◌, true, ◌++◌, ◌+◌, ◌≤◌, length, drop};
ghost use Rattle.bpg_nal_emulation.specs.Emulation.{unescape as unescaped, keeps_rules};
ghost use Rattle.bpg_nal_escape.specs.Calls.{unescape_answer, unescape_buffer};

use crate::rules::check;
use bpg_bytes::{BytePos, buffer};
use bpg_format::Written;
use bpg_nal_emulation::pattern;
use bpg_refusal::Reason;

// Writes the bytes of a unit that keeps the rules, without its emulation prevention bytes, to the front of `out`, which has room. After the
// last of them, `marks` in all, nothing is looked for.
fn put(unit: &[u8], marks: usize, out: &mut [u8])
    requires unit_value { keeps_rules unit.now ≡ true }
    requires marks_len { length (unescaped unit.now) + marks ≡ length unit.now }
    requires unit_in_bounds { length (unescaped unit.now) ≤ length out.old }
    ensures { out.new ≡ unescaped unit.now ++ drop (length (unescaped unit.now)) out.old }
{
    let mut filled = BytePos(0);
    let mut i: usize = 0;
    for _ in 0..marks {
        let at = pattern::next(unit, BytePos(i)).0;
        filled = buffer::write(out, filled, &unit[i..at + 2]);
        i = at + 3;
    }
    buffer::write(out, filled, &unit[i..]);
}

// Writes the bytes of a unit without its emulation prevention bytes from the start of `out`.
pub fn unescape(unit: &[u8], out: &mut [u8]) -> Written
    ensures value { result ≡ unescape_answer unit.now out.old }
    ensures out_after { out.new ≡ unescape_buffer unit.now out.old }
{
    let Some(count) = check(unit) else {
        return Written::refused(Reason::BadNalUnit.at(BytePos(0)));
    };
    if out.len() < count {
        return Written::refused(Reason::BufferTooSmall.at(BytePos(0)));
    }
    put(unit, unit.len() - count, out);
    Written::of(count)
}
