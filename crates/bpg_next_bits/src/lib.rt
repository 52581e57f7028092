// The next bits of a region, in a word: a short header is then read from a register, where looking each field up in its bytes takes longer.
#![tactic(auto)]

mod word;

ghost use Rattle.std.specs.Prelude.{ℕ, List, ◌+◌};
ghost use Rattle.bpg_next_bits.specs.NextBits.{InWord};

use bpg_bits::bits;
use bpg_bytes::{BitPos, byte_of};

// So many bits, at most 63, in the high bits of a word.
#[derive(Clone, Copy)]
pub struct NextBits {
    pub word: u64,
    pub count: usize,
}

impl NextBits {
    // The region's bits from `at` on: all, if they are fewer than 64. None where `at` is not the first bit of a byte.
    pub fn new(region: &[u8], at: BitPos) -> NextBits
        ensures { InWord region.now at.0 result.word result.count }
    {
        if at.0 % 8 != 0 {
            return NextBits { word: 0, count: 0 };
        }
        let word = word::read(region, byte_of(at));
        let count = bits::count(region).saturating_sub(at.0).min(63);
        NextBits { word, count }
    }

    // Those that are left after the first `size` of them: none after 64 or more.
    pub fn after(self, size: usize) -> NextBits
        ensures { (region : List ℕ) (p : ℕ) → InWord region p self.word self.count → InWord region (p + size) result.word result.count }
    {
        NextBits {
            word: self.word << (size % 64),
            count: self.count.saturating_sub(size),
        }
    }
}
