// The entries of a record before it is written: their ranges lie in the source, and those that are not in use are zero.
#![tactic(auto)]

pub mod ranges;
pub mod used;
