// The fields of a HEVC header, read from its bits.
#![tactic(auto)]

pub mod all_fields;
mod field;
mod values;
