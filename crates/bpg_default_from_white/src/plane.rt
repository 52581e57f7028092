// One plane and W.
ghost use Rattle.std.specs.Prelude.{◌≡◌, ◌≤◌, ◌/◌, length};
ghost use mathlib.Core.List.{zip_with};
ghost use Rattle.bpg_sample_rules.specs.Rules.{max_sample, times_white};
ghost use Rattle.bpg_sample_rules.specs.Planes.{largest};

// R·W/M for M = 2^depth − 1, and M / 2 = half: two shifts in place of the division, so that it is compiled to vectors.
fn times_white(r: u16, w: u16, half: u32, depth: u8) -> u16
    requires { (8 ≤ depth) × (depth ≤ 14) × (r ≤ max_sample depth) × (w ≤ max_sample depth) × (half ≡ max_sample depth / 2) }
    ensures { result ≡ times_white (max_sample depth) r w }
{
    let x = u32::from(r) * u32::from(w) + half;
    ((x + (x >> depth) + 1) >> depth) as u16
}

pub(crate) fn white_plane(plane: &[u16], white: &[u16], m: u16, depth: u8, out: &mut [u16])
    requires le_depth { (8 ≤ depth) × (depth ≤ 14) × (m ≡ max_sample depth) }
    requires out_len { (length out.old ≡ length plane.now) × (length white.now ≡ length plane.now) × (largest plane.now ≤ m) × (largest white.now ≤ m) }
    ensures { out.new ≡ zip_with (times_white (max_sample depth)) plane.now white.now }
{
    let half = u32::from(m / 2);
    for (i, sample) in out.iter_mut().enumerate() {
        *sample = times_white(plane[i], white[i], half, depth);
    }
}
