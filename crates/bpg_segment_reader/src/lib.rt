// The payloads found in a run of JPEG segments.
#![tactic(auto)]

mod chunks;
mod run;
mod segment;

pub use run::{Found, find};
pub use segment::Part;
