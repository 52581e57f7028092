// A BPG file read into a list of numbers, for callers that do not have the record's type.
#![tactic(auto)]

mod file;
mod fixed;

pub use file::read;
