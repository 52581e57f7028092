// Reading a short field of a region's bits: a flag, or a number of at most eight bits.
ghost use Rattle.std.specs.Prelude.{◌≡◌};
ghost use Rattle.bpg_bits.specs.Answers.{short_answer};

use crate::bits;
use bpg_bytes::{BitPos, Located, byte_at, byte_of};

// The next n bits as a number, the high bit first; n above 8 counts as 8, and no bits are 0, at every position. They stand in the byte of the
// first and in the next one: no other is looked at.
pub fn read(region: &[u8], at: BitPos, n: u32) -> Option<Located<u32, BitPos>>
    ensures { result ≡ short_answer region.now at.0 n }
{
    let start = at.0;
    let width = (n as usize).min(8);
    if bits::count(region).saturating_sub(start) < width {
        return None;
    }
    let byte = byte_of(at).0;
    let two = u64::from(byte_at(region, byte)) * 256 + u64::from(byte_at(region, byte + 1));
    let value = ((two >> (16 - start % 8 - width)) % (1u64 << width)) as u32;
    let past = start + width;
    Some(Located {
        value,
        next: BitPos(past),
    })
}
