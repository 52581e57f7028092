// Up to 64 bits, gathered one field after another, to be written as bytes with zero bits up to the byte.
#![tactic(auto)]

ghost use Rattle.std.specs.Prelude.{◌≡◌, [], ◌∷◌, ◌++◌, min, ◌-◌, ◌≤◌};
ghost use Rattle.bpg_codec.specs.Bits.{bits as bits_of, zeros};
ghost use Rattle.bpg_codec.specs.Buffer.{written, written_end};
ghost use Rattle.bpg_bits.specs.BitNumbers.{exp_golomb};
ghost use Rattle.bpg_write_bits.specs.BitBuffer.{empty, overfull, appended, buffer_bytes};

use bpg_bits::exp_golomb;
use bpg_bytes::{BitPos, BytePos, buffer};

// The bits as a number, and how many they are: a HEVC header that keeps the rules has at most 56. More than 64 bits are one value too, and no
// `None`: `gathered` of any bits is a buffer, so that a header's fields are appended without a test between them (`Added`), and only the length
// of the whole is asked for.
#[derive(Clone, Copy)]
pub struct BitBuffer {
    pub bits: u64,
    pub len: BitPos,
}

// What stands for more than 64 bits.
const OVERFULL: BitBuffer = BitBuffer {
    bits: 0,
    len: BitPos(65),
};

impl BitBuffer {
    pub fn new() -> BitBuffer
        ensures { result ≡ empty }
    {
        BitBuffer {
            bits: 0,
            len: BitPos(0),
        }
    }

    // Appends the n low bits of v; n above 63 counts as 63.
    pub fn append(self, n: u32, v: u64) -> BitBuffer
        ensures { result ≡ appended self (bits_of (min n 63) v) }
    {
        let width = n.min(63) as usize;
        if 64 < self.len.0 || 64 - self.len.0 < width {
            return OVERFULL;
        }
        BitBuffer {
            bits: (self.bits << width) + v % (1u64 << width),
            len: BitPos(self.len.0 + width),
        }
    }

    // Appends one bit.
    pub fn append_flag(self, flag: bool) -> BitBuffer
        ensures { result ≡ appended self (flag ∷ []) }
    {
        self.append(1, u64::from(flag))
    }

    // Appends ue(v); nothing where v has no code.
    pub fn append_exp_golomb(self, v: u32) -> BitBuffer
        ensures { result ≡ appended self (exp_golomb.encode v) }
    {
        self.append(exp_golomb::size(v), u64::from(v) + 1)
    }

    // Writes the buffer's bytes at `at` and answers the position after them; where they do not fit, nothing is written and the
    // answer is `at`.
    pub fn write(self, out: &mut [u8], at: BytePos) -> BytePos
        ensures out_after { out.new ≡ written out.old at.0 (buffer_bytes self) }
        ensures result_value { result.0 ≡ written_end out.old at.0 (buffer_bytes self) }
    {
        let count = self.len.0.min(64);
        let bytes = left_aligned(self.bits, count).to_be_bytes();
        buffer::write(out, at, &bytes[..count.div_ceil(8)])
    }
}

// The n low bits of v, from the high end on; zeros after them.
fn left_aligned(v: u64, n: usize) -> u64
    requires { n ≤ 64 }
    ensures { bits_of 64 result ≡ bits_of n v ++ zeros (64 - n) }
{
    if n == 0 { 0 } else { v << (64 - n) }
}
