// One field of a HEVC header. It is taken from the next bits, `bits`, where they hold it, else it is looked up in its bytes.
// Each function says that they are the bits at `at`: a type that says so would carry the region and the place along, which the loop has anyway.
ghost use Rattle.std.specs.Prelude.{◌≡◌, true, ◌≤◌, ◌<◌};
ghost use Rattle.bpg_codec.specs.Codec.{decode_at};
ghost use Rattle.bpg_bits.specs.BitNumbers.{region_bits, exp_golomb};
ghost use Rattle.bpg_bits.specs.Answers.{bit_answer, short_answer};
ghost use Rattle.bpg_next_bits.specs.NextBits.{InWord};
ghost use Rattle.bpg_read_fields.specs.Table.{field_codec};

use bpg_bits::{exp_golomb, short};
use bpg_bytes::{BitPos, Located};
use bpg_next_bits::NextBits;

// ue(v): as many zero bits stand before its first one as bits follow that.
fn code(region: &[u8], at: BitPos, bits: NextBits) -> Option<Located<u32, BitPos>>
    requires { InWord region.now at.0 bits.word bits.count }
    ensures { result ≡ bit_answer (decode_at (region_bits region.now) exp_golomb 0 at.0) }
{
    let size = 2 * (u64::leading_zeros(bits.word) as usize) + 1;
    if bits.count < size {
        return exp_golomb::read(region, at);
    }
    Some(Located {
        value: ((bits.word >> (64 - size)) - 1) as u32,
        next: BitPos(at.0 + size),
    })
}

// A flag or another field of n bits: the one routine for all of them.
fn fixed(region: &[u8], at: BitPos, n: u8, bits: NextBits) -> Option<Located<u32, BitPos>>
    requires in_word { InWord region.now at.0 bits.word bits.count }
    requires n_nonzero { 0 < n }
    requires n_bound { n ≤ 8 }
    ensures { result ≡ short_answer region.now at.0 n }
{
    let size = usize::from(n);
    if bits.count < size {
        return short::read(region, at, u32::from(n));
    }
    Some(Located {
        value: (bits.word >> (64 - size)) as u32,
        next: BitPos(at.0 + size),
    })
}

// A field that is there, of so many bits, or ue(v) where there are 0 of them.
pub(crate) fn read(
    region: &[u8],
    at: BitPos,
    width: u8,
    bits: NextBits,
) -> Option<Located<u32, BitPos>>
    requires in_word { InWord region.now at.0 bits.word bits.count }
    requires width_bound { width ≤ 8 }
    ensures { result ≡ bit_answer (decode_at (region_bits region.now) (field_codec true width) 0 at.0) }
{
    if width == 0 {
        return code(region, at, bits);
    }
    fixed(region, at, width, bits)
}
