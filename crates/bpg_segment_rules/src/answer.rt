// What import answers. Status 0 is success, else the refusal number.
ghost use Rattle.std.specs.Prelude.{◌≡◌};
ghost use Rattle.bpg_refusal.specs.Numbers.{reason_number};
ghost use Rattle.bpg_segment_rules.specs.Calls.{refused_import};

use bpg_refusal::Refusal;

// The lengths of the payloads, which stand end to end in the buffer: EXIF, XMP, ICC. An absent one has length 0. A struct with a status, since C has these fields.
#[derive(Clone, Copy)]
pub struct Imported {
    pub status: u8,
    pub offset: usize,
    pub exif_length: usize,
    pub xmp_length: usize,
    pub icc_length: usize,
}

impl Imported {
    // What a refused run is answered: all lengths are zero.
    pub fn refused(refusal: Refusal) -> Imported
        ensures { result ≡ refused_import (reason_number refusal.reason) refusal.offset.0 }
    {
        Imported {
            status: refusal.reason.number(),
            offset: refusal.offset.0,
            exif_length: 0,
            xmp_length: 0,
            icc_length: 0,
        }
    }
}
