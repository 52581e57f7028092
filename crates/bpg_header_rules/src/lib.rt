// What a HEVC header is judged by, in reading and in writing: rules on its fields, each a test of a header by value.
#![tactic(auto)]

pub mod rules;
