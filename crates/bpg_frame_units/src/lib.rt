// What NAL units say of frames: each one judged, and the frames of data counted.
#![tactic(auto)]

pub mod count;
mod judge;
pub mod kind;
pub mod wait;
