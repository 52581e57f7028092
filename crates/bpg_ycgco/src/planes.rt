// The three planes, pixel by pixel.
ghost use Rattle.std.specs.Prelude.{◌≡◌};
ghost use mathlib.Core.List.{zip_with};
ghost use Rattle.bpg_sample_rules.specs.Rules.{green_of, blue_of, red_of};
ghost use Rattle.bpg_sample_rules.specs.Planes.{zip_with3};
ghost use Rattle.bpg_ycgco.specs.Given.{Given};

use crate::pixel::{blue_at, green_at, half_range, red_at, t_plus_half};

// One loop for the three, since each pixel's t serves two of them.
pub(crate) fn convert_planes(
    y: &[u16],
    cg: &[u16],
    co: &[u16],
    red: &mut [u16],
    green: &mut [u16],
    blue: &mut [u16],
    m: u16,
    depth: u8,
)
    requires { Given depth m y.now cg.now co.now red.old green.old blue.old }
    ensures red_after { red.new ≡ zip_with3 (red_of depth) y.now cg.now co.now }
    ensures green_after { green.new ≡ zip_with (green_of depth) y.now cg.now }
    ensures blue_after { blue.new ≡ zip_with3 (blue_of depth) y.now cg.now co.now }
{
    let half = half_range(m);
    // By index, since of a slice that `iter_mut().zip(..)` has written nothing is known.
    for i in 0..y.len() {
        let (luma, g, o) = (y[i], cg[i], co[i]);
        let t = t_plus_half(luma, g, half);
        red[i] = red_at(t, o, m, half);
        green[i] = green_at(luma, g, m, half);
        blue[i] = blue_at(t, o, m);
    }
}
