// What the calls answer. Status 0 is success, else document 01's refusal number; offset is document 01's place.
ghost use Rattle.std.specs.Prelude.{◌≡◌};
ghost use Rattle.bpg_refusal.specs.Numbers.{reason_number};
ghost use Rattle.bpg_format.specs.Zero.{refused_reading, refused_written};

use crate::record::Record;
use bpg_refusal::Refusal;

// The answers of calls are structs with a status and no Result: C has these fields, and clauses and theorems speak of a refusal's zeros.
#[derive(Clone, Copy)]
pub struct Reading {
    pub status: u8,
    pub offset: usize,
    pub coded_width: u64,
    pub coded_height: u64,
    pub record: Record,
}

#[derive(Clone, Copy)]
pub struct Written {
    pub status: u8,
    pub offset: usize,
    pub count: usize,
}

impl Reading {
    // What a refused file is answered: all else is zero.
    pub fn refused(refusal: Refusal) -> Reading
        ensures { result ≡ refused_reading (reason_number refusal.reason) refusal.offset.0 }
    {
        Reading {
            status: refusal.reason.number(),
            offset: refusal.offset.0,
            coded_width: 0,
            coded_height: 0,
            record: Record::default(),
        }
    }
}

impl Written {
    // What a call that writes `count` bytes answers. (Frames and Converted have their own: a trait would take an impl for each.)
    pub fn of(count: usize) -> Written
        ensures { result ≡ record { status = 0; offset = 0; count = count } }
    {
        Written {
            status: 0,
            offset: 0,
            count,
        }
    }

    // What a call that refuses answers: nothing is written.
    pub fn refused(refusal: Refusal) -> Written
        ensures { result ≡ refused_written (reason_number refusal.reason) refusal.offset.0 }
    {
        Written {
            status: refusal.reason.number(),
            offset: refusal.offset.0,
            count: 0,
        }
    }
}
