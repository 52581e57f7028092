// A word of 64 bits.
ghost use Rattle.std.specs.Prelude.{◌≡◌, ◌^◌, ◌<◌};
ghost use Rattle.bpg_codec.specs.Bits.{bits};
ghost use Rattle.bpg_next_bits.specs.NextBits.{word_bits};

use bpg_bytes::BytePos;

// The 64 bits from `at` on as a number; zeros past the region.
pub(crate) fn read(region: &[u8], at: BytePos) -> u64
    requires { at.0 < 2 ^ 61 }
    ensures { bits 64 result ≡ word_bits region.now at.0 }
{
    let start = at.0;
    let end = (start + 8).min(region.len());
    let mut word: u64 = 0;
    for next in start..end {
        word += u64::from(region[next]) << (56 - 8 * (next - start));
    }
    word
}
