// The duration that waits for its frame.
ghost use Rattle.std.specs.Prelude.{◌≡◌};
ghost use Rattle.bpg_frame_units.specs.Frames.{lasting};
ghost use Rattle.bpg_frame_units.specs.Answers.{waits, wait_by};

use crate::kind::Verdict;
use bpg_bytes::BytePos;

// A duration, and where the SEI unit that set it starts.
#[derive(Clone, Copy)]
pub struct Waiting {
    pub duration: u16,
    pub unit: BytePos,
}

// What waits after the unit at `start`: a frame that starts takes it.
#[tactic(auto, unfolding(bpg_codec::specs::Select::select))]
pub fn wait_after(wait: Option<Waiting>, verdict: Verdict, start: BytePos) -> Option<Waiting>
    ensures { result ≡ wait_by wait verdict start.0 }
{
    if verdict.starts {
        return None;
    }
    if verdict.durations.count == 0 {
        return wait;
    }
    Some(Waiting {
        duration: verdict.durations.last,
        unit: start,
    })
}

// How long a frame is shown: 1 where no duration waits. One that was judged is not 0, and 0 would count as none.
#[tactic(auto, unfolding(bpg_codec::specs::Select::select))]
pub fn shown(wait: Option<Waiting>) -> u16
    ensures { result ≡ lasting (waits wait).duration }
{
    match wait {
        Some(waiting) => waiting.duration.max(1),
        None => 1,
    }
}
