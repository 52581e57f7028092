// What a call on samples answers: status 0 and the count of samples of a plane, or a refusal's status and 0. The offset is 0 in any case.
ghost use Rattle.std.specs.Prelude.{◌≡◌};
ghost use Rattle.bpg_refusal.specs.Numbers.{reason_number};
ghost use Rattle.bpg_sample_check.specs.Answers.{refused_converted};

use bpg_refusal::Reason;

// A struct and no Result: C's interface answers the status, and the theorems `Answers` speak of the three fields.
#[derive(Clone, Copy)]
pub struct Converted {
    pub status: u8,
    pub offset: usize,
    pub count: usize,
}

impl Converted {
    // What a call on `count` samples a plane answers.
    pub fn of(count: usize) -> Converted
        ensures { result ≡ record { status = 0; offset = 0; count = count } }
    {
        Converted {
            status: 0,
            offset: 0,
            count,
        }
    }

    // What a call that refuses answers: nothing is written.
    pub fn refused(reason: Reason) -> Converted
        ensures { result ≡ refused_converted (reason_number reason) 0 }
    {
        Converted {
            status: reason.number(),
            offset: 0,
            count: 0,
        }
    }
}
