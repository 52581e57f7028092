// The payloads of a run.
ghost use Rattle.bpg_segment_reader.specs.Runs.{FoundIn};

use crate::chunks::judge_chunks;
use crate::segment::{Part, part_at};

// Where EXIF and XMP stand in a run, and how long the profile is, whose chunks follow them. Where an empty part stands is open.
#[derive(Clone, Copy)]
pub struct Found {
    pub exif: Part,
    pub xmp: Part,
    pub icc_length: usize,
}

// The payloads of a run that export can make; none of any other.
pub fn find(run: &[u8]) -> Option<Found>
    ensures { FoundIn run.now result }
{
    let exif = part_at(run, 0, 0xe1, b"Exif\0\0");
    let xmp = part_at(run, exif.end, 0xe1, b"http://ns.adobe.com/xap/1.0/\0");
    let icc_length = judge_chunks(run, xmp.end)?;
    Some(Found {
        exif,
        xmp,
        icc_length,
    })
}
