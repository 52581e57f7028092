// The metadata of a file exported as JPEG segments (request 10/13).
#![tactic(auto)]

mod call;
mod tags;

pub use call::export_segments;
