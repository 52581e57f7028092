// HEVC data cut into NAL units at its start codes, and the header of a unit.
#![tactic(auto)]

mod cut;
mod nal_header;
mod start_code;

pub use cut::{Cut, cut_at, trimmed};
pub use nal_header::NalHeader;
