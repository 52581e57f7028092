// What the head call answers (request 9/13).
#![tactic(auto)]

ghost use Rattle.std.specs.Prelude.{◌≡◌};
ghost use Rattle.bpg_refusal.specs.Numbers.{reason_number};
ghost use Rattle.bpg_head_rules.specs.Calls.{refused_head_reading};

use bpg_read_head::flags::Flags;
use bpg_refusal::Refusal;

// The fields of a head as coded. Without the extension flag the extension length is 0.
#[derive(Clone, Copy, Default)]
pub struct CodedHead {
    pub flags: Flags,
    pub picture_width: u32,
    pub picture_height: u32,
    pub data_length: u32,
    pub extension_length: u32,
}

// Status 0 and the head; or a refusal and zeros. No result: the theorem `HeadCall` says of every field what a refusal leaves in it.
#[derive(Clone, Copy)]
pub struct HeadReading {
    pub status: u8,
    pub offset: usize,
    pub head: CodedHead,
}

impl HeadReading {
    // What a refused file is answered: the head is all zero.
    pub fn refused(refusal: Refusal) -> HeadReading
        ensures { result ≡ refused_head_reading (reason_number refusal.reason) refusal.offset.0 }
    {
        HeadReading {
            status: refusal.reason.number(),
            offset: refusal.offset.0,
            head: CodedHead::default(),
        }
    }
}
