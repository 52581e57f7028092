// The call.
ghost use Rattle.std.specs.Prelude.{◌≡◌};
ghost use mathlib.Core.List.{[], ◌∷◌, zip_with};
ghost use Rattle.bpg_sample_rules.specs.Rules.{max_sample, unpremultiplied};
ghost use Rattle.bpg_sample_check.specs.Judgement.{judged};
ghost use Rattle.bpg_sample_check.specs.Answers.{answer_of, buffer_after};

use crate::planes::convert_planes;
use bpg_sample_check::{Converted, judge, max_sample};

// R', G' and B' from R, G and B that were multiplied by A; or a refusal, and the buffers as they were.
pub fn unpremultiply(
    r: &[u16],
    g: &[u16],
    b: &[u16],
    a: &[u16],
    red: &mut [u16],
    green: &mut [u16],
    blue: &mut [u16],
    depth: u8,
) -> Converted
    ensures value { result ≡ answer_of (judged depth (r.now ∷ g.now ∷ b.now ∷ a.now ∷ []) (red.old ∷ green.old ∷ blue.old ∷ [])) }
    ensures red_after { red.new ≡ buffer_after result.status (zip_with (unpremultiplied (max_sample depth)) r.now a.now) red.old }
    ensures green_after { green.new ≡ buffer_after result.status (zip_with (unpremultiplied (max_sample depth)) g.now a.now) green.old }
    ensures blue_after { blue.new ≡ buffer_after result.status (zip_with (unpremultiplied (max_sample depth)) b.now a.now) blue.old }
{
    let count = match judge(&[r, g, b, a], &[red, green, blue], depth) {
        Ok(count) => count,
        Err(reason) => return Converted::refused(reason),
    };
    convert_planes(r, g, b, a, red, green, blue, max_sample(depth));
    Converted::of(count)
}
