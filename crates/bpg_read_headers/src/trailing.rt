// The bits after a header's last field.
ghost use Rattle.std.specs.Prelude.{◌≡◌, drop};
ghost use Rattle.bpg_codec.specs.Bits.{is_padding};
ghost use Rattle.bpg_bits.specs.BitNumbers.{region_bits};

use bpg_bits::bits;
use bpg_bytes::{BitPos, byte_of};

// From `at` on there are 0 to 7 bits, all zero: the low bits of the byte that `at` stands in.
pub(crate) fn is_padding(region: &[u8], at: BitPos) -> bool
    ensures { result ≡ is_padding (drop at.0 (region_bits region.now)) }
{
    let end = bits::count(region);
    let start = at.0;
    if end <= start {
        return true;
    }
    let left = end - start;
    if 8 <= left {
        return false;
    }
    let byte = byte_of(at).0;
    region[byte] % (1u8 << left) == 0
}
