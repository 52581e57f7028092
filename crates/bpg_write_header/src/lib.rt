// The bits of a HEVC header, for writing.
#![tactic(auto)]

mod fields;
pub mod header;
