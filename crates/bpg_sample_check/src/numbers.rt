// The largest sample of a depth.
ghost use Rattle.std.specs.Prelude.{◌≡◌, min};
ghost use Rattle.bpg_sample_rules.specs.Rules.{max_sample};

// M, the largest sample of a depth; of a depth above 16 that of 16, since a sample has no more bits.
pub fn max_sample(depth: u8) -> u16
    ensures { result ≡ max_sample (min depth 16) }
{
    let bits = depth.min(16);
    ((1u32 << bits) - 1) as u16
}
