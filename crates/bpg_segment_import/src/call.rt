// The call.
ghost use Rattle.std.specs.Prelude.{◌≡◌, ◌≤◌, length};
ghost use Rattle.bpg_segment_reader.specs.Places.{bytes_of};
ghost use Rattle.bpg_segment_rules.specs.Calls.{import_segments, import_buffer};

use crate::profile::copy_profile;
use bpg_bytes::{BytePos, buffer};
use bpg_refusal::Reason;
use bpg_segment_reader::{Part, find};
use bpg_segment_rules::Imported;

// A part's bytes in its run.
fn bytes(run: &[u8], part: Part) -> &[u8]
    requires ordered { part.start ≤ part.end }
    requires inside { part.end ≤ length run.now }
    ensures { result.now ≡ bytes_of run.now part }
{
    &run[part.start..part.end]
}

// The payloads of a run, end to end from the start of `out` (EXIF, XMP, ICC), and their lengths; or 36 where the run is not one that export can make,
// or 20. All is judged before a byte is stored.
pub fn import_segments(run: &[u8], out: &mut [u8]) -> Imported
    ensures value { result ≡ import_segments run.now out.old }
    ensures out_after { out.new ≡ import_buffer run.now out.old }
{
    let Some(found) = find(run) else {
        return Imported::refused(Reason::BadSegments.at(BytePos(0)));
    };
    let exif = bytes(run, found.exif);
    let xmp = bytes(run, found.xmp);
    if out.len() < exif.len() + xmp.len() + found.icc_length {
        return Imported::refused(Reason::BufferTooSmall.at(BytePos(0)));
    }
    let p = buffer::write(out, BytePos(0), exif);
    let q = buffer::write(out, p, xmp);
    copy_profile(run, found.xmp.end, out, q);
    Imported {
        status: 0,
        offset: 0,
        exif_length: exif.len(),
        xmp_length: xmp.len(),
        icc_length: found.icc_length,
    }
}
