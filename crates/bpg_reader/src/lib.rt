// Reading a BPG file: the record that the syntax gives, or a refusal; all of it, or its head first.
#![tactic(auto)]

mod answer;
mod file;

pub use answer::coded_size;
pub use bpg_head_call::call::{CodedHead, HeadReading, head};
pub use file::{body, judge, read};
