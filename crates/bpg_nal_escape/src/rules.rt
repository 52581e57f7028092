// The emulation rules of a unit.
ghost use Rattle.std.specs.Prelude.{◌≡◌};
ghost use Rattle.bpg_nal_escape.specs.Checks.{check_of};

use bpg_bytes::{BytePos, byte_at};
use bpg_nal_emulation::pattern;

// How many bytes a unit has without its emulation prevention bytes, if it keeps the rules. A `loop`, since it goes from pattern to pattern.
pub(crate) fn check(unit: &[u8]) -> Option<usize>
    ensures { result ≡ check_of unit.now }
{
    let mut marks: usize = 0;
    let mut i: usize = 0;
    loop {
        let at = pattern::next(unit, BytePos(i)).0;
        if unit.len() <= at {
            return Some(unit.len() - marks);
        }
        if unit[at + 2] != 3 || 3 < byte_at(unit, at + 3) {
            return None;
        }
        marks += 1;
        i = at + 3;
    }
}
