// The three planes, pixel by pixel.
ghost use Rattle.std.specs.Prelude.{◌≡◌};
ghost use mathlib.Core.List.{zip_with};
ghost use Rattle.bpg_sample_rules.specs.Rules.{unpremultiplied};
ghost use Rattle.bpg_unpremultiply.specs.Given.{Given};

use crate::pixel::{reciprocal, unpremultiply_sample};

// One loop for the three, since each pixel's reciprocal serves all of them.
pub(crate) fn convert_planes(
    r: &[u16],
    g: &[u16],
    b: &[u16],
    a: &[u16],
    red: &mut [u16],
    green: &mut [u16],
    blue: &mut [u16],
    m: u16,
)
    requires { Given m r.now g.now b.now a.now red.old green.old blue.old }
    ensures red_after { red.new ≡ zip_with (unpremultiplied m) r.now a.now }
    ensures green_after { green.new ≡ zip_with (unpremultiplied m) g.now a.now }
    ensures blue_after { blue.new ≡ zip_with (unpremultiplied m) b.now a.now }
{
    // By index, since of a slice that `iter_mut().zip(..)` has written nothing is known.
    for i in 0..a.len() {
        let alpha = a[i];
        // A pixel of no colour needs no division: a transparent ground is most of many pictures.
        if alpha == 0 {
            red[i] = m;
            green[i] = m;
            blue[i] = m;
            continue;
        }
        let v = reciprocal(alpha);
        red[i] = unpremultiply_sample(r[i], alpha, m, v);
        green[i] = unpremultiply_sample(g[i], alpha, m, v);
        blue[i] = unpremultiply_sample(b[i], alpha, m, v);
    }
}
