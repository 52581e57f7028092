// The call.
ghost use Rattle.std.specs.Prelude.{◌≡◌};
ghost use mathlib.Core.List.{[], ◌∷◌, zip_with};
ghost use Rattle.bpg_sample_rules.specs.Rules.{green_of, blue_of, red_of};
ghost use Rattle.bpg_sample_rules.specs.Planes.{zip_with3};
ghost use Rattle.bpg_sample_check.specs.Judgement.{judged};
ghost use Rattle.bpg_sample_check.specs.Answers.{answer_of, buffer_after};

use crate::planes::convert_planes;
use bpg_sample_check::{Converted, judge, max_sample};

// R, G and B from Y, Cg and Co; or a refusal, and the buffers as they were.
pub fn ycgco(
    y: &[u16],
    cg: &[u16],
    co: &[u16],
    red: &mut [u16],
    green: &mut [u16],
    blue: &mut [u16],
    depth: u8,
) -> Converted
    ensures value { result ≡ answer_of (judged depth (y.now ∷ cg.now ∷ co.now ∷ []) (red.old ∷ green.old ∷ blue.old ∷ [])) }
    ensures red_after { red.new ≡ buffer_after result.status (zip_with3 (red_of depth) y.now cg.now co.now) red.old }
    ensures green_after { green.new ≡ buffer_after result.status (zip_with (green_of depth) y.now cg.now) green.old }
    ensures blue_after { blue.new ≡ buffer_after result.status (zip_with3 (blue_of depth) y.now cg.now co.now) blue.old }
{
    let count = match judge(&[y, cg, co], &[red, green, blue], depth) {
        Ok(count) => count,
        Err(reason) => return Converted::refused(reason),
    };
    convert_planes(y, cg, co, red, green, blue, max_sample(depth), depth);
    Converted::of(count)
}
