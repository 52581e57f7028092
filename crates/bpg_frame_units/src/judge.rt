// Judging a unit that keeps the emulation rules: its header, its kind, and the durations that it sets.
ghost use Rattle.std.specs.Prelude.{true, not, ℕ, ◌≡◌, eqb};
ghost use Rattle.bpg_nal_emulation.specs.Emulation.{keeps_rules};
ghost use Rattle.bpg_refusal.specs.Outcomes.{outcome_at_zero};
ghost use Rattle.bpg_frame_units.specs.Units.{unit_says};
ghost use Rattle.bpg_frame_units.specs.Frames.{judged};
ghost use Rattle.bpg_frame_units.specs.Answers.{verdict_of, settles_by};

use crate::kind::{Verdict, verdict_on};
use bpg_nal_units::NalHeader;
use bpg_refusal::Reason;
use bpg_sei::Durations;

// That the unit keeps the emulation rules is a property of bytes that are lent: a type for it would hold the slice alone.
fn says(unit: &[u8], alpha: bool) -> Result<Verdict, Reason>
    requires { keeps_rules unit.now ≡ true }
    ensures { outcome_at_zero result ≡ verdict_of (unit_says alpha unit.now) }
{
    if unit.len() < 2 {
        return Err(Reason::BadNalUnit);
    }
    let header = NalHeader::of(unit[0], unit[1]);
    if header.forbidden_zero_bit {
        return Err(Reason::BadNalUnit);
    }
    if header.nuh_temporal_id_plus1 == 0 {
        return Err(Reason::BadNalUnit);
    }
    verdict_on(unit, alpha)
}

// Refusal 24: a duration is not 0, and none waits when it is set. `waits` says whether one waits before the unit.
fn settles(waits: bool, durations: Durations) -> bool
    ensures { result ≡ settles_by waits durations }
{
    (durations.count == 0) | ((durations.count == 1) & ((durations.last != 0) & !waits))
}

// Judges a unit before which a duration waits, or none: w stands for the duration, 0 for none.
pub(crate) fn judge(unit: &[u8], alpha: bool, waits: bool) -> Result<Verdict, Reason>
    requires { keeps_rules unit.now ≡ true }
    ensures { (w : ℕ) → waits ≡ not (eqb w 0) → outcome_at_zero result ≡ verdict_of (judged alpha w unit.now) }
{
    let verdict = says(unit, alpha)?;
    if settles(waits, verdict.durations) {
        Ok(verdict)
    } else {
        Err(Reason::BadDuration)
    }
}
