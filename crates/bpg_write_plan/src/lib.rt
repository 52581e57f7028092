// Planning a file: a record judged, its headers encoded and its parts measured, before any of it is written.
#![tactic(auto)]

mod layout;
mod plan;

pub use layout::{Layout, data_length};
pub use plan::{Plan, prepare};
