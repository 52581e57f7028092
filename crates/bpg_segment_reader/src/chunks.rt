// The chunks of a profile, from their place in a run to its end.
ghost use Rattle.std.specs.Prelude.{◌≡◌, ◌≤◌, length as count, drop, get_or};
ghost use Rattle.bpg_segment_rules.specs.Runs.{icc_prefix, icc_in};
ghost use Rattle.bpg_segment_reader.specs.Places.{PartAt, full_size, judged_length, judgement_of};

use crate::segment::{Part, part_at};
use bpg_bytes::byte_at;

// The chunk with this number and count at `at`. (That `at` lies in the run is required where it is read: a type for it would hold the run too.)
fn chunk_at(run: &[u8], at: usize, number: u8, total: u8) -> Part
    requires { at ≤ count run.now }
    ensures { PartAt run.now at 226 (icc_prefix number total) result }
{
    let prefix = [73, 67, 67, 95, 80, 82, 79, 70, 73, 76, 69, 0, number, total];
    part_at(run, at, 0xe2, &prefix)
}

// The count of chunks that the first chunk says, 0 where there is none.
fn count_at(run: &[u8], at: usize) -> u8
    requires { at ≤ count run.now }
    ensures { result ≡ get_or (drop at run.now) 17 0 }
{
    byte_at(run, at + 17)
}

// A chunk before `left` others has a size that it may have.
fn is_full(left: u8, size: usize) -> bool
    ensures { result ≡ full_size left size }
{
    (left == 0) | (size == 65_519)
}

// The length of the profile, if all its chunks are as they must be and nothing follows them.
pub(crate) fn judge_chunks(run: &[u8], at: usize) -> Option<usize>
    requires { at ≤ count run.now }
    ensures { judged_length 0 (icc_in (drop at run.now)) ≡ judgement_of result }
{
    let total = count_at(run, at);
    let mut p = at;
    let mut length: usize = 0;
    for k in 0..total {
        let chunk = chunk_at(run, p, k + 1, total);
        let size = chunk.end - chunk.start;
        if size == 0 {
            return None;
        }
        if !is_full(total - k - 1, size) {
            return None;
        }
        length += size;
        p = chunk.end;
    }
    if p == run.len() { Some(length) } else { None }
}
