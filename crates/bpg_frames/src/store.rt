// The second pass over data that was judged: the durations are stored.
ghost use Rattle.std.specs.Prelude.{◌≡◌, true, ◌++◌, ◌+◌, ◌<◌, length, drop, set};
ghost use Rattle.bpg_codec.specs.Select.{select};
ghost use Rattle.bpg_frame_units.specs.Frames.{lasting};
ghost use Rattle.bpg_frame_units.specs.Answers.{waits};
ghost use Rattle.bpg_frames.specs.Surveys.{Storable, durations_at};

use crate::calls::Survey;
use bpg_bytes::BytePos;
use bpg_frame_units::kind::{starts_frame, verdict_on};
use bpg_frame_units::wait::{Waiting, shown, wait_after};
use bpg_nal_units::cut_at;

// Stores the duration of a frame that starts, and answers where the next one goes. (A function of its own: where the two cases of an `if` join in the
// loop, the proof no longer knows which of them it was.)
#[tactic(auto, unfolding(bpg_codec::specs::Select::select))]
fn put(durations: &mut [u16], at: usize, starts: bool, wait: Option<Waiting>) -> usize
    requires { starts ≡ true → at < length durations.old }
    ensures value { result ≡ select starts (at + 1) at }
    ensures durations_after { durations.new ≡ select starts (set durations.old at (lasting (waits wait).duration)) durations.old }
{
    if !starts {
        return at;
    }
    durations[at] = shown(wait);
    at + 1
}

// The durations of the frames of data whose units were all judged, from the start of `durations`, which has room for them. The unit that the last
// frame starts at is not searched for its end. A `loop`, and no `for`: the next unit stands behind the start code that this one ends at.
pub(crate) fn store_durations(file: &[u8], survey: Survey, durations: &mut [u16])
    requires { Storable file.now survey.start.0 survey.alpha survey.count durations.old }
    ensures { durations.new ≡ durations_at file.now survey.start.0 survey.alpha ++ drop (length (durations_at file.now survey.start.0 survey.alpha)) durations.old }
{
    let mut found: usize = 0;
    let mut start = survey.start;
    let mut wait: Option<Waiting> = None;
    // From start code to start code, so no `for`. The name of the loop, and that of its test, stand in the proof whatever the test compares.
    'units: loop {
        let starts = starts_frame(&file[start.0..]);
        found = put(durations, found, starts, wait);
        let all_stored = survey.count <= found;
        if all_stored {
            return;
        }
        let cut = cut_at(file, start);
        let verdict = verdict_on(&file[start.0..cut.end.0], survey.alpha).unwrap();
        wait = wait_after(wait, verdict, start);
        start = BytePos(cut.code.0 + 3);
    }
}
