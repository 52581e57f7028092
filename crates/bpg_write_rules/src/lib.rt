// What a HEVC header is judged by in writing alone, each a test of a header by value.
#![tactic(auto)]

pub mod absent;
pub mod coded;
