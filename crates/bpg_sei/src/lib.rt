// The messages of a prefix SEI unit, read over the unit's bytes: emulation prevention bytes are passed over, and nothing is copied.
#![tactic(auto)]

mod content;
mod message;
mod messages;
mod sum;

pub use messages::{Durations, read};
