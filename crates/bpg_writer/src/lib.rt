// Writing a record as the file that the syntax gives: planned first, and then written.
#![tactic(auto)]

mod emit;
mod file;

pub use file::{size, write};
