// Reading a region's bits, the high bit of each byte first.
ghost use Rattle.std.specs.Prelude.{◌≡◌, false, min, ◌*◌, ◌<◌, length, get_or};
ghost use Rattle.bpg_codec.specs.Codec.{decode_at};
ghost use Rattle.bpg_codec.specs.Bits.{bit as bit_of, unpack};
ghost use Rattle.bpg_bits.specs.BitNumbers.{region_bits, unsigned};
ghost use Rattle.bpg_bits.specs.Answers.{bit_answer};

use bpg_bytes::{BitPos, Located, byte_of};

// How many bits a region has. A position is 64 bits wide, so a region above 2^60 bytes counts as its first 2^60.
pub fn count(region: &[u8]) -> usize
    ensures { result ≡ length (region_bits region.now) }
{
    8 * region.len().min(0x1000_0000_0000_0000)
}

// The bit at `at` as a number.
pub(crate) fn bit_inside(region: &[u8], at: BitPos) -> u64
    requires { at.0 < 8 * length region.now }
    ensures { result ≡ bit_of (get_or (unpack region.now) at.0 false) }
{
    let byte = byte_of(at).0;
    (u64::from(region[byte]) >> (7 - at.0 % 8)) % 2
}

// The next n bits as a number; n above 32 counts as 32. It is for ue(v), whose codes have up to 31 bits after the one: a field of a header has
// at most eight, and `short` reads it. The item that missing bits are refused at is the caller's, so here it is 0.
pub fn read(region: &[u8], at: BitPos, n: u32) -> Option<Located<u32, BitPos>>
    ensures { result ≡ bit_answer (decode_at (region_bits region.now) (unsigned (min n 32)) 0 at.0) }
{
    let start = at.0;
    let width = (n as usize).min(32);
    if count(region).saturating_sub(start) < width {
        return None;
    }
    let past = start + width;
    let mut value: u64 = 0;
    for next in start..past {
        value = value * 2 + bit_inside(region, BitPos(next));
    }
    Some(Located {
        value: value as u32,
        next: BitPos(past),
    })
}
