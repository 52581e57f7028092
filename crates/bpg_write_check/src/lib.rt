// Judging a record before it is written: whether it may be, or the reason why not.
#![tactic(auto)]

mod consistent;
mod content;
mod entries;
mod header;
pub mod judge;
