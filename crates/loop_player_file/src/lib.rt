// The frame of a file that stands at a time (request 12/13), by the calls of both libraries and what they promise.
#![tactic(auto)]

mod shown;
mod time;

pub use shown::Shown;
pub use time::frame_at_time;
