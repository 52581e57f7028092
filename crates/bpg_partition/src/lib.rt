// The partition of a file (request 13/13): how many bytes are its head, entry heads, payloads, HEVC headers and data.
#![tactic(auto)]

mod answer;
mod call;
mod payloads;

pub use answer::Partition;
pub use call::partition;
