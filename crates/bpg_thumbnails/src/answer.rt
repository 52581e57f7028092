// What the deep check answers. Status 0 is success, else the refusal number.
ghost use Rattle.std.specs.Prelude.{◌≡◌};
ghost use Rattle.bpg_refusal.specs.Outcomes.{outcome};
ghost use Rattle.bpg_thumbnails.specs.Calls.{checked_of};

use bpg_refusal::Refusal;

// A struct with a status and an offset, and no Result: the C interface has it so.
#[derive(Clone, Copy)]
pub struct Checked {
    pub status: u8,
    pub offset: usize,
}

impl Checked {
    // The answer of a check that ended so.
    pub(crate) fn of(end: Result<(), Refusal>) -> Checked
        ensures { result ≡ checked_of (outcome (λ u. u) end) }
    {
        match end {
            Ok(()) => Checked {
                status: 0,
                offset: 0,
            },
            Err(refusal) => Checked {
                status: refusal.reason.number(),
                offset: refusal.offset.0,
            },
        }
    }
}
