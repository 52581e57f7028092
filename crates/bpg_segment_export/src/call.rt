// The call.
ghost use Rattle.std.specs.Prelude.{◌≡◌, ◌+◌, ◌≤◌, length};
ghost use Rattle.bpg_format.specs.Records.{bytes_in};
ghost use Rattle.bpg_segment_export.specs.Calls.{export_segments, exported_buffer};

use crate::tags::with_tag;
use bpg_bytes::BytePos;
use bpg_format::{Range, Written};
use bpg_reader::read;
use bpg_refusal::Reason;
use bpg_segment_writer::write_run;

// The bytes of a range of the file.
fn bytes(file: &[u8], range: Range) -> &[u8]
    requires { range.start + range.length ≤ length file.now }
    ensures { result.now ≡ bytes_in file.now range }
{
    let start = range.start as usize;
    &file[start..start + range.length as usize]
}

// What a file with one of the tags twice is answered.
fn tag_twice() -> Written
    ensures { result ≡ record { status = 35; offset = 0; count = 0 } }
{
    Written::refused(Reason::TagTwice.at(BytePos(0)))
}

// The payloads of tags 1 (EXIF), 3 (XMP) and 2 (ICC) as segments from the start of `out`, and how many bytes these are; or the reader's refusal,
// 35, 34 or 20. All is judged before a byte is stored, and each payload is copied once.
pub fn export_segments(file: &[u8], out: &mut [u8]) -> Written
    ensures value { result ≡ export_segments file.now out.old }
    ensures out_after { out.new ≡ exported_buffer file.now out.old }
{
    let reading = read(file);
    if reading.status != 0 {
        return Written {
            status: reading.status,
            offset: reading.offset,
            count: 0,
        };
    }
    let record = &reading.record;
    let Some(exif) = with_tag(record, 1) else {
        return tag_twice();
    };
    let Some(xmp) = with_tag(record, 3) else {
        return tag_twice();
    };
    let Some(icc) = with_tag(record, 2) else {
        return tag_twice();
    };
    write_run(bytes(file, exif), bytes(file, xmp), bytes(file, icc), out)
}
