// The call.
ghost use Rattle.std.specs.Prelude.{◌≡◌};
ghost use mathlib.Core.List.{[], ◌∷◌, zip_with};
ghost use Rattle.bpg_sample_rules.specs.Rules.{max_sample, times_white};
ghost use Rattle.bpg_sample_check.specs.Judgement.{judged};
ghost use Rattle.bpg_sample_check.specs.Answers.{answer_of, buffer_after};

use crate::plane::white_plane;
use bpg_sample_check::{Converted, judge, max_sample};

// R', G' and B' from R, G, B and W; or a refusal, and the buffers as they were.
pub fn default_from_white(
    r: &[u16],
    g: &[u16],
    b: &[u16],
    w: &[u16],
    red: &mut [u16],
    green: &mut [u16],
    blue: &mut [u16],
    depth: u8,
) -> Converted
    ensures value { result ≡ answer_of (judged depth (r.now ∷ g.now ∷ b.now ∷ w.now ∷ []) (red.old ∷ green.old ∷ blue.old ∷ [])) }
    ensures red_after { red.new ≡ buffer_after result.status (zip_with (times_white (max_sample depth)) r.now w.now) red.old }
    ensures green_after { green.new ≡ buffer_after result.status (zip_with (times_white (max_sample depth)) g.now w.now) green.old }
    ensures blue_after { blue.new ≡ buffer_after result.status (zip_with (times_white (max_sample depth)) b.now w.now) blue.old }
{
    let count = match judge(&[r, g, b, w], &[red, green, blue], depth) {
        Ok(count) => count,
        Err(reason) => return Converted::refused(reason),
    };
    let m = max_sample(depth);
    white_plane(r, w, m, depth, red);
    white_plane(g, w, m, depth, green);
    white_plane(b, w, m, depth, blue);
    Converted::of(count)
}
