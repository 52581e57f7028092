// A run of JPEG segments imported as payloads (request 10/13).
#![tactic(auto)]

mod call;
mod profile;

pub use call::import_segments;
