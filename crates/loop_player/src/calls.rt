// The two calls.
ghost use Rattle.std.specs.Prelude.{false, ◌≡◌, MatchOption};
ghost use Rattle.loop_player.specs.Player.{playable, frame_answer, ticks_answer};

use crate::answer::{FrameAt, TickCount};
use crate::check::{frames_known, period_known};
use crate::round::{add_up, frame_in, is_over, last_of};

// The answer for a loop that can be played; none is refusal 37.
fn played(
    loop_count: u16,
    period_num: u16,
    period_den: u16,
    durations: &[u16],
    tick: u64,
) -> Option<FrameAt>
    ensures { MatchOption result (playable period_num period_den durations.now ≡ false) (λ a. a ≡ frame_answer loop_count period_num period_den durations.now tick) }
{
    if !period_known(period_num, period_den) {
        return None;
    }
    if !frames_known(durations.len()) {
        return None;
    }
    let round = add_up(durations)?;
    if is_over(loop_count, round, tick) {
        return Some(FrameAt {
            status: 0,
            frame: last_of(durations.len()),
            ended: true,
        });
    }
    Some(FrameAt {
        status: 0,
        frame: frame_in(durations, tick % round),
        ended: false,
    })
}

// The frame that stands at a tick, a tick being one frame period; loop count 0 plays for ever. 37: no frame, above 256 frames, a duration of 0, or
// a period number of 0.
pub fn frame_at(
    loop_count: u16,
    period_num: u16,
    period_den: u16,
    durations: &[u16],
    tick: u64,
) -> FrameAt
    ensures { result ≡ frame_answer loop_count period_num period_den durations.now tick }
{
    match played(loop_count, period_num, period_den, durations, tick) {
        Some(answer) => answer,
        // 37 as a number: this crate has no dependency, so no enum of reasons.
        None => FrameAt {
            status: 37,
            frame: 0,
            ended: false,
        },
    }
}

// Milliseconds as whole ticks. 37: a period number of 0.
pub fn ticks(ms: u32, period_num: u16, period_den: u16) -> TickCount
    ensures { result ≡ ticks_answer ms period_num period_den }
{
    if !period_known(period_num, period_den) {
        return TickCount {
            status: 37,
            ticks: 0,
        };
    }
    TickCount {
        status: 0,
        ticks: u64::from(ms) * u64::from(period_den) / (1000 * u64::from(period_num)),
    }
}
