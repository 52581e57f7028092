// What a call on samples is refused for.
ghost use Rattle.std.specs.Prelude.{◌≡◌, ◌&&◌, ◌==◌, leb, map, length};
ghost use Rattle.std.specs.List.{list_all};
ghost use Rattle.bpg_sample_rules.specs.Planes.{largest};
ghost use Rattle.bpg_sample_check.specs.Judgement.{sample_count, judged};
ghost use Rattle.bpg_refusal.specs.Outcomes.{outcome_at_zero};

use crate::numbers::max_sample;
use bpg_refusal::Reason;

// The largest sample of a plane. The loop goes on to the plane's end, whatever it finds: so it is compiled to vectors, and takes a fifth of the
// time of one that looks for a sample above M.
fn largest(plane: &[u16]) -> u16
    ensures { result ≡ largest plane.now }
{
    let mut top: u16 = 0;
    for sample in plane {
        top = top.max(*sample);
    }
    top
}

// How many samples the first plane has.
fn sample_count(planes: &[&[u16]]) -> usize
    ensures { result ≡ sample_count (map (λ p. p.now) planes.now) }
{
    planes.first().map_or(0, |plane| plane.len())
}

// Whether each of some planes or buffers has `count` samples.
fn have_length(slices: &[&[u16]], count: usize) -> bool
    ensures { result ≡ list_all (λ l. length l.now == count) slices.now }
{
    slices.iter().all(|samples| samples.len() == count)
}

// Whether all of them have.
fn have_equal_lengths(planes: &[&[u16]], buffers: &[&[u16]], count: usize) -> bool
    ensures { result ≡ (list_all (λ l. length l.now == count) planes.now && list_all (λ l. length l.now == count) buffers.now) }
{
    have_length(planes, count) && have_length(buffers, count)
}

fn is_depth_known(depth: u8) -> bool
    ensures { result ≡ (leb 8 depth && leb depth 14) }
{
    (8..=14).contains(&depth)
}

// Whether no sample is above m.
fn have_samples_within(planes: &[&[u16]], m: u16) -> bool
    ensures { result ≡ list_all (λ p. leb (largest p.now) m) planes.now }
{
    planes.iter().all(|plane| largest(plane) <= m)
}

// The count of samples of a plane, if planes and buffers may be converted at this depth. Where it refuses, nothing may be written.
pub fn judge(planes: &[&[u16]], buffers: &[&[u16]], depth: u8) -> Result<usize, Reason>
    ensures { outcome_at_zero result ≡ judged depth (map (λ p. p.now) planes.now) (map (λ b. b.now) buffers.now) }
{
    let count = sample_count(planes);
    if !have_equal_lengths(planes, buffers, count) {
        return Err(Reason::UnequalLengths);
    }
    if !is_depth_known(depth) {
        return Err(Reason::BadSampleDepth);
    }
    if !have_samples_within(planes, max_sample(depth)) {
        return Err(Reason::SampleTooLarge);
    }
    Ok(count)
}
