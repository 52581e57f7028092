// The call.
ghost use Rattle.std.specs.Prelude.{◌≡◌, [], ◌∷◌, map};
ghost use Rattle.bpg_sample_rules.specs.Rules.{max_sample, complement};
ghost use Rattle.bpg_sample_check.specs.Judgement.{judged};
ghost use Rattle.bpg_sample_check.specs.Answers.{answer_of, buffer_after};

use crate::plane::complement_plane;
use bpg_sample_check::{Converted, judge, max_sample};

// C, M, Y and K from R, G, B and W; or a refusal, and the buffers as they were.
pub fn cmyk(
    r: &[u16],
    g: &[u16],
    b: &[u16],
    w: &[u16],
    cyan: &mut [u16],
    magenta: &mut [u16],
    yellow: &mut [u16],
    black: &mut [u16],
    depth: u8,
) -> Converted
    ensures value { result ≡ answer_of (judged depth (r.now ∷ g.now ∷ b.now ∷ w.now ∷ []) (cyan.old ∷ magenta.old ∷ yellow.old ∷ black.old ∷ [])) }
    ensures cyan_after { cyan.new ≡ buffer_after result.status (map (complement (max_sample depth)) r.now) cyan.old }
    ensures magenta_after { magenta.new ≡ buffer_after result.status (map (complement (max_sample depth)) g.now) magenta.old }
    ensures yellow_after { yellow.new ≡ buffer_after result.status (map (complement (max_sample depth)) b.now) yellow.old }
    ensures black_after { black.new ≡ buffer_after result.status (map (complement (max_sample depth)) w.now) black.old }
{
    let count = match judge(&[r, g, b, w], &[cyan, magenta, yellow, black], depth) {
        Ok(count) => count,
        Err(reason) => return Converted::refused(reason),
    };
    let m = max_sample(depth);
    complement_plane(r, m, cyan);
    complement_plane(g, m, magenta);
    complement_plane(b, m, yellow);
    complement_plane(w, m, black);
    Converted::of(count)
}
