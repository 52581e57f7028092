// The number code ue(v) of H.265, clause 9.2: z zero bits, a one, z further bits; the value is 2^z - 1 plus those bits.
// z is at most 31, so 2^32 - 1 has no code.
ghost use Rattle.std.specs.Prelude.{◌≡◌, ◌<◌, length, drop};
ghost use Rattle.bpg_codec.specs.Outcome.{located};
ghost use Rattle.bpg_codec.specs.Codec.{decode_at};
ghost use Rattle.bpg_bits.specs.BitNumbers.{region_bits, exp_golomb, exp_golomb_suffix};
ghost use Rattle.bpg_bits.specs.Answers.{bit_answer};

use crate::bits;
use bpg_bytes::{BitPos, Located};

// The most zero bits that a number begins with.
const MOST_ZEROS: usize = 31;

// The z bits after the one, and the value that they make.
fn suffix(region: &[u8], at: BitPos, z: u32) -> Option<Located<u32, BitPos>>
    requires { z < 32 }
    ensures { result ≡ bit_answer (located (exp_golomb_suffix 0 z at.0 (drop at.0 (region_bits region.now)))) }
{
    let low = bits::read(region, at, z)?;
    Some(Located {
        value: ((1u32 << z) - 1) + low.value,
        next: low.next,
    })
}

// The number at `at`, bit by bit.
pub fn read(region: &[u8], at: BitPos) -> Option<Located<u32, BitPos>>
    ensures { result ≡ bit_answer (decode_at (region_bits region.now) exp_golomb 0 at.0) }
{
    for next in at.0..bits::count(region) {
        let zeros = next - at.0;
        if bits::bit_inside(region, BitPos(next)) == 1 {
            return suffix(region, BitPos(next + 1), zeros as u32);
        }
        if zeros == MOST_ZEROS {
            return None;
        }
    }
    None
}

// How many bits v takes: 2z + 1, or none where it has no code.
pub fn size(v: u32) -> u32
    ensures { result ≡ length (exp_golomb.encode v) }
{
    if v == 0xffff_ffff {
        return 0;
    }
    2 * (31 - u32::leading_zeros(v + 1)) + 1
}
