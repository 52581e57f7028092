// The call.
ghost use Rattle.std.specs.Prelude.{◌≡◌, [], ◌∷◌, map};
ghost use Rattle.bpg_sample_rules.specs.Rules.{full_luma};
ghost use Rattle.bpg_sample_check.specs.Judgement.{judged};
ghost use Rattle.bpg_sample_check.specs.Answers.{answer_of, buffer_after};

use crate::plane::look_up;
use crate::table::FULL_LUMA;
use bpg_sample_check::{Converted, judge};

// Full-range luma from limited luma of 8 bits; or a refusal, and the buffer as it was. The depth is 8, so it is never refused.
pub fn limited_luma(y: &[u16], out: &mut [u16]) -> Converted
    ensures value { result ≡ answer_of (judged 8 (y.now ∷ []) (out.old ∷ [])) }
    ensures out_after { out.new ≡ buffer_after result.status (map full_luma y.now) out.old }
{
    let count = match judge(&[y], &[out], 8) {
        Ok(count) => count,
        Err(reason) => return Converted::refused(reason),
    };
    let table = FULL_LUMA;
    look_up(y, &table, out);
    Converted::of(count)
}
