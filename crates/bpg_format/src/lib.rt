// The record of a BPG file, the answers of the calls, and their zero values. specs/ has the format: what a file, a record and a
// picture are, and what each call answers.
#![tactic(auto)]

mod answer;
mod data;
mod record;

pub use answer::{Reading, Written};
pub use data::data_allowed;
pub use record::{
    Entry, Header, MAX_ENTRIES, MAX_FILE, Range, Record, color_space_allowed, has_alpha,
};
