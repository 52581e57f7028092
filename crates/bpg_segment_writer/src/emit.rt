// Writing segments, each at its place in a buffer that is known to hold it.
ghost use Rattle.std.specs.Prelude.{◌≡◌, ◌++◌, ◌+◌, ◌≤◌, length as count};
ghost use Rattle.bpg_codec.specs.Buffer.{written, written_end};
ghost use Rattle.bpg_segment_rules.specs.Segments.{header as header_of, segment as segment_of, part as part_of};
ghost use Rattle.bpg_segment_rules.specs.Runs.{icc_prefix, icc_run, chunk_count as count_of};

use crate::size::chunk_count;
use bpg_bytes::{BytePos, buffer};

// The payload bytes of every chunk but the last.
pub(crate) const CHUNK_SIZE: usize = 65_519;

// FF, the marker and the length field.
fn header(out: &mut [u8], at: BytePos, marker: u8, size: usize) -> BytePos
    requires { size ≤ 65533 }
    ensures out_after { out.new ≡ written out.old at.0 (header_of marker size) }
    ensures result_value { result.0 ≡ written_end out.old at.0 (header_of marker size) }
{
    let field = size + 2;
    let bytes = [0xff, marker, (field / 256) as u8, (field % 256) as u8];
    buffer::write(out, at, &bytes)
}

// A segment with a prefix and a payload.
fn segment(out: &mut [u8], at: BytePos, marker: u8, prefix: &[u8], payload: &[u8]) -> BytePos
    requires payload_bound { count prefix.now + count payload.now ≤ 65533 }
    requires payload_bound_2 { at.0 + count (segment_of marker (prefix.now ++ payload.now)) ≤ count out.old }
    ensures out_after { out.new ≡ written out.old at.0 (segment_of marker (prefix.now ++ payload.now)) }
    ensures result_value { result.0 ≡ written_end out.old at.0 (segment_of marker (prefix.now ++ payload.now)) }
{
    let p = header(out, at, marker, prefix.len() + payload.len());
    let q = buffer::write(out, p, prefix);
    buffer::write(out, q, payload)
}

// A payload in one segment, or nothing where it is empty.
pub(crate) fn part(
    out: &mut [u8],
    at: BytePos,
    marker: u8,
    prefix: &[u8],
    payload: &[u8],
) -> BytePos
    requires payload_bound { count prefix.now + count payload.now ≤ 65533 }
    requires payload_bound_2 { at.0 + count (part_of marker prefix.now payload.now) ≤ count out.old }
    ensures out_after { out.new ≡ written out.old at.0 (part_of marker prefix.now payload.now) }
    ensures result_value { result.0 ≡ written_end out.old at.0 (part_of marker prefix.now payload.now) }
{
    if payload.is_empty() {
        return at;
    }
    segment(out, at, marker, prefix, payload)
}

// A chunk of a profile.
fn chunk(out: &mut [u8], at: BytePos, number: u8, total: u8, payload: &[u8]) -> BytePos
    requires payload_bound { count payload.now ≤ 65519 }
    requires payload_bound_2 { at.0 + count (segment_of 226 (icc_prefix number total ++ payload.now)) ≤ count out.old }
    ensures out_after { out.new ≡ written out.old at.0 (segment_of 226 (icc_prefix number total ++ payload.now)) }
    ensures result_value { result.0 ≡ written_end out.old at.0 (segment_of 226 (icc_prefix number total ++ payload.now)) }
{
    let prefix = [73, 67, 67, 95, 80, 82, 79, 70, 73, 76, 69, 0, number, total];
    segment(out, at, 0xe2, &prefix, payload)
}

// The chunks of a profile.
pub(crate) fn profile(out: &mut [u8], at: BytePos, payload: &[u8]) -> BytePos
    requires payload_bound { count_of payload.now ≤ 255 }
    requires payload_bound_2 { at.0 + count (icc_run payload.now) ≤ count out.old }
    ensures out_after { out.new ≡ written out.old at.0 (icc_run payload.now) }
    ensures result_value { result.0 ≡ written_end out.old at.0 (icc_run payload.now) }
{
    let total = chunk_count(payload.len());
    let mut next = at;
    // By its number, which each chunk is written with: over `chunks` what is left of the payload is known of the iterator alone, which is no plainer.
    for k in 0..total {
        let from = k * CHUNK_SIZE;
        let to = (from + CHUNK_SIZE).min(payload.len());
        next = chunk(out, next, (k + 1) as u8, total as u8, &payload[from..to]);
    }
    next
}
