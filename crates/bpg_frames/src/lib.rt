// The frames of a file's HEVC data, and for how many periods each one is shown.
#![tactic(auto)]

mod calls;
mod store;

pub use bpg_frame_units::count::Frames;
pub use calls::{frame_count, frames};
