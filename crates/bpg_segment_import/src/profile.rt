// The profile of a run that was accepted.
ghost use Rattle.std.specs.Prelude.{◌≡◌, ◌+◌, ◌≤◌, length as count, drop};
ghost use Rattle.bpg_codec.specs.Outcome.{ok};
ghost use Rattle.bpg_codec.specs.Buffer.{written, written_end};
ghost use Rattle.bpg_segment_rules.specs.Runs.{icc_in};
ghost use Rattle.bpg_segment_reader.specs.Runs.{profile_in};

use bpg_bytes::{BytePos, buffer};

// Writes the payloads of the chunks from `at` on, end to end: each follows 18 bytes, and all but the last have 65,519.
pub(crate) fn copy_profile(run: &[u8], at: usize, out: &mut [u8], to: BytePos) -> BytePos
    requires at_bound { at ≤ count run.now }
    requires run_value { icc_in (drop at run.now) ≡ ok (profile_in (drop at run.now)) }
    requires run_bound { to.0 + count (profile_in (drop at run.now)) ≤ count out.old }
    ensures out_after { out.new ≡ written out.old to.0 (profile_in (drop at run.now)) }
    ensures result_value { result.0 ≡ written_end out.old to.0 (profile_in (drop at run.now)) }
{
    let mut p = at;
    let mut next = to;
    // A while: each step ends where its payload ends, and `chunks` would cut the header off in a step of its own, which is no plainer.
    while p < run.len() {
        let start = p + 18;
        let end = (start + 65_519).min(run.len());
        next = buffer::write(out, next, &run[start..end]);
        p = end;
    }
    next
}
