// Writing a file from a list of numbers, for callers that do not have a record's type.
#![tactic(auto)]

mod check;
mod file;
mod record;

pub use file::{size, write};
