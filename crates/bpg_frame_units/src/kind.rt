// What a unit says of frames, by its kind: a slice, a prefix SEI, or another.
ghost use Rattle.std.specs.Prelude.{◌≡◌, get_or};
ghost use Rattle.bpg_nal_units.specs.Headers.{header_of};
ghost use Rattle.bpg_refusal.specs.Outcomes.{outcome_at_zero};
ghost use Rattle.bpg_frame_units.specs.Units.{is_slice, is_prefix_sei, starts_frame, allowed_unit, slice_says, sei_says, kind_says};
ghost use Rattle.bpg_frame_units.specs.Answers.{Headed, verdict_of};

use bpg_bytes::byte_at;
use bpg_nal_units::NalHeader;
use bpg_refusal::Reason;
use bpg_sei::Durations;

// Whether a frame starts in a unit, and the durations that it sets for the frames after it.
#[derive(Clone, Copy, Default)]
pub struct Verdict {
    pub starts: bool,
    pub durations: Durations,
}

fn is_slice(header: NalHeader) -> bool
    ensures { result ≡ is_slice header }
{
    (header.nuh_layer_id == 0) & (header.nal_unit_type < 32)
}

fn is_prefix_sei(header: NalHeader) -> bool
    ensures { result ≡ is_prefix_sei header }
{
    (header.nuh_layer_id == 0) & (header.nal_unit_type == 39)
}

// Refusal 23: layer above 1, layer 1 without alpha, or VPS or SPS.
fn is_allowed(header: NalHeader, alpha: bool) -> bool
    ensures { result ≡ allowed_unit alpha header }
{
    ((header.nuh_layer_id == 0) | ((header.nuh_layer_id == 1) & alpha))
        & ((header.nal_unit_type != 32) & (header.nal_unit_type != 33))
}

// Whether a frame starts at the unit that these bytes begin with. A unit that passes is long enough for this, so where it ends is not asked.
pub fn starts_frame(bytes: &[u8]) -> bool
    ensures { result ≡ starts_frame bytes.now }
{
    let header = NalHeader::of(byte_at(bytes, 0), byte_at(bytes, 1));
    is_slice(header) & (128 <= byte_at(bytes, 2))
}

// A slice of layer 0: the first bit after its header is 1 where a frame starts.
fn slice(unit: &[u8]) -> Result<Verdict, Reason>
    ensures { outcome_at_zero result ≡ verdict_of (slice_says unit.now) }
{
    if unit.len() < 3 {
        return Err(Reason::BadNalUnit);
    }
    Ok(Verdict {
        starts: 128 <= unit[2],
        durations: Durations::default(),
    })
}

fn prefix_sei(unit: &[u8]) -> Result<Verdict, Reason>
    ensures { (get_or unit.now 1 0 ≡ 0 → ⊥) → outcome_at_zero result ≡ verdict_of (sei_says unit.now) }
{
    let Some(durations) = bpg_sei::read(unit) else {
        return Err(Reason::BadNalUnit);
    };
    Ok(Verdict {
        starts: false,
        durations,
    })
}

// What a unit says that has a header with a temporal id. One that is too short for a header is refused.
pub fn verdict_on(unit: &[u8], alpha: bool) -> Result<Verdict, Reason>
    ensures { Headed unit.now → outcome_at_zero result ≡ verdict_of (kind_says alpha unit.now (header_of (get_or unit.now 0 0) (get_or unit.now 1 0))) }
{
    if unit.len() < 2 {
        return Err(Reason::BadNalUnit);
    }
    let header = NalHeader::of(unit[0], unit[1]);
    if is_slice(header) {
        return slice(unit);
    }
    if is_prefix_sei(header) {
        return prefix_sei(unit);
    }
    if is_allowed(header, alpha) {
        Ok(Verdict::default())
    } else {
        Err(Reason::BadNalLayer)
    }
}
