// Three payloads as a run of segments.
ghost use Rattle.std.specs.Prelude.{◌≡◌};
ghost use Rattle.bpg_segment_rules.specs.Runs.{payloads};
ghost use Rattle.bpg_segment_rules.specs.Calls.{export_payloads, export_buffer};

use crate::{emit, size};
use bpg_bytes::BytePos;
use bpg_format::Written;
use bpg_refusal::Reason;

// The payloads as segments from the start of `out`: EXIF, XMP, ICC. An empty payload has no segment. All is judged before a byte is stored.
pub fn write_run(exif: &[u8], xmp: &[u8], icc: &[u8], out: &mut [u8]) -> Written
    ensures value { result ≡ export_payloads (payloads exif.now xmp.now icc.now) out.old }
    ensures out_after { out.new ≡ export_buffer (payloads exif.now xmp.now icc.now) out.old }
{
    if !size::within_limits(exif.len(), xmp.len(), icc.len()) {
        return Written::refused(Reason::PayloadTooLong.at(BytePos(0)));
    }
    let count = size::run(exif.len(), xmp.len(), icc.len());
    if out.len() < count {
        return Written::refused(Reason::BufferTooSmall.at(BytePos(0)));
    }
    let p = emit::part(out, BytePos(0), 0xe1, b"Exif\0\0", exif);
    let q = emit::part(out, p, 0xe1, b"http://ns.adobe.com/xap/1.0/\0", xmp);
    emit::profile(out, q, icc);
    Written::of(count)
}
