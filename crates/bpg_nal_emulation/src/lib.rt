// Emulation prevention in NAL units: where the next pattern stands that the rules speak of.
#![tactic(auto)]

pub mod pattern;
