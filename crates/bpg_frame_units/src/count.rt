// The first pass over the data: every unit judged, and the frames counted.
ghost use Rattle.std.specs.Prelude.{◌≡◌};
ghost use Rattle.bpg_refusal.specs.Numbers.{reason_number};
ghost use Rattle.bpg_refusal.specs.Outcomes.{outcome};
ghost use Rattle.bpg_frame_units.specs.Answers.{refused_frames, counted, ended, frames_at};

use crate::judge::judge;
use crate::wait::{Waiting, wait_after};
use bpg_bytes::BytePos;
use bpg_nal_scan::scan_at;
use bpg_refusal::{Reason, Refusal};

// The answer of the calls. Status 0 is success, else the refusal number; `count` is how many frames there are, 0 if refused. (Numbers, for C, and
// because the theorems of bpg_frames speak of the count of a refusal.)
#[derive(Clone, Copy)]
pub struct Frames {
    pub status: u8,
    pub offset: usize,
    pub count: usize,
}

impl Frames {
    pub fn of(count: usize) -> Frames
        ensures { result ≡ record { status = 0; offset = 0; count = count } }
    {
        Frames {
            status: 0,
            offset: 0,
            count,
        }
    }
}

impl From<Refusal> for Frames {
    ghost from_gives = { λ refusal frames. frames ≡ refused_frames (reason_number refusal.reason) refusal.offset.0 };

    fn from(refusal: Refusal) -> Frames {
        Frames {
            status: refusal.reason.number(),
            offset: refusal.offset.0,
            count: 0,
        }
    }
}

// Refusal 24: no duration waits after the last unit.
fn end(count: usize, wait: Option<Waiting>) -> Result<usize, Refusal>
    ensures { outcome (λ n. n) result ≡ ended count wait }
{
    if let Some(waiting) = wait {
        return Err(Reason::BadDuration.at(waiting.unit));
    }
    Ok(count)
}

// How many frames there are in the data that starts at `data` and ends with the file. Data that would start past the end has one unit, which is
// empty. A `loop`, and no `for`: the next unit stands behind the start code that this one ends at.
pub fn count_frames(file: &[u8], data: BytePos, alpha: bool) -> Result<usize, Refusal>
    ensures { outcome (λ n. n) result ≡ counted (frames_at file.now «data».0 alpha) }
{
    if file.len() < data.0 {
        return Err(Reason::BadNalUnit.at(data));
    }
    let mut found: usize = 0;
    let mut start = data;
    let mut wait: Option<Waiting> = None;
    loop {
        let Some(cut) = scan_at(file, start) else {
            return Err(Reason::BadNalUnit.at(start));
        };
        let unit = &file[start.0..cut.end.0];
        // A `match`, and no `map_err`: what its closure gives is not known in the proof.
        let verdict = match judge(unit, alpha, wait.is_some()) {
            Ok(verdict) => verdict,
            Err(reason) => return Err(reason.at(start)),
        };
        found += usize::from(verdict.starts);
        wait = wait_after(wait, verdict, start);
        if file.len() <= cut.code.0 {
            return end(found, wait);
        }
        start = BytePos(cut.code.0 + 3);
    }
}
