// A reading as a list of numbers, for callers that do not have its type: what its numbers are, and where its parts stand.
#![tactic(auto)]

mod list;

pub use list::{ALPHA, COLOR, COUNT, DATA, FIXED, LOOP, put, put_header};
