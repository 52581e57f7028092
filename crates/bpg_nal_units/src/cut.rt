// A NAL unit in its region: where it ends, and where the start code after it stands.
ghost use Rattle.std.specs.Prelude.{◌≡◌, ◌+◌, length, take, drop};
ghost use Rattle.bpg_nal_units.specs.Units.{trim_zeros, cut_at};

use crate::start_code;
use bpg_bytes::BytePos;

// A unit is the bytes from its start up to `end`; zero bytes come between it and the start code, which stands at `code`. After the
// last unit `code` is the end of the region.
#[derive(Clone, Copy)]
pub struct Cut {
    pub end: BytePos,
    pub code: BytePos,
}

// Where the bytes from `start` up to `code` end without the zeros at their end.
pub fn trimmed(region: &[u8], start: BytePos, code: BytePos) -> BytePos
    ensures { result.0 ≡ start.0 + length (trim_zeros (drop start.0 (take code.0 region.now))) }
{
    for last in (start.0..code.0.min(region.len())).rev() {
        if region[last] != 0 {
            return BytePos(last + 1);
        }
    }
    start
}

// The unit that starts at `start`.
pub fn cut_at(region: &[u8], start: BytePos) -> Cut
    ensures { result ≡ cut_at region.now start.0 }
{
    let code = start_code::next(region, start);
    let end = trimmed(region, start, code);
    Cut { end, code }
}
