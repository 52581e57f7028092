// The content of a unit, byte by byte.
ghost use Rattle.std.specs.Prelude.{◌≡◌, [], ◌<◌, ◌^◌, MatchOption};
ghost use Rattle.bpg_nal_emulation.specs.Emulation.{zeros_after, is_mark};
ghost use Rattle.bpg_sei.specs.Steps.{left_at, Stepped, passed};

use bpg_bytes::{BytePos, Located};

// Where reading stands: an offset in the unit, and the zeros in a row before it, of which two count.
#[derive(Clone, Copy)]
pub struct Cursor {
    pub at: BytePos,
    pub zeros: u8,
}

#[tactic(auto, unfolding(bpg_nal_emulation::specs::Emulation::zeros_after, bpg_codec::specs::Select::select))]
fn zeros_after(zeros: u8, byte: u8) -> u8
    ensures { result ≡ zeros_after zeros byte }
{
    if byte != 0 {
        0
    } else if zeros == 0 {
        1
    } else {
        2
    }
}

// An emulation prevention byte.
fn is_mark(zeros: u8, byte: u8) -> bool
    ensures { result ≡ is_mark zeros byte }
{
    (zeros == 2) & (byte == 3)
}

// A byte of the content that stands at `at` after `zeros` zeros, and the place behind it.
fn passed(byte: u8, at: usize, zeros: u8) -> Located<u8, Cursor>
    requires { at < 2 ^ 63 }
    ensures { result ≡ passed byte at zeros }
{
    Located {
        value: byte,
        next: Cursor {
            at: BytePos(at + 1),
            zeros: zeros_after(zeros, byte),
        },
    }
}

impl Cursor {
    // The byte of the content here, if any is left.
    pub(crate) fn next(self, unit: &[u8]) -> Option<Located<u8, Cursor>>
        ensures { MatchOption result (left_at unit.now self ≡ []) (Stepped unit.now self) }
    {
        let at = self.at.0;
        let byte = *unit.get(at)?;
        if !is_mark(self.zeros, byte) {
            return Some(passed(byte, at, self.zeros));
        }
        let behind = at + 1;
        let byte = *unit.get(behind)?;
        Some(passed(byte, behind, 0))
    }
}
