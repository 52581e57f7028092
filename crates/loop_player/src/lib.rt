// The loop player (request 12/13): which frame of a loop stands at a tick, and milliseconds as ticks. It needs nothing of a file.
#![tactic(auto)]

mod answer;
mod calls;
mod check;
mod round;

pub use answer::{FrameAt, TickCount};
pub use calls::{frame_at, ticks};
