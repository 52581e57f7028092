// The animation control, the payload of tag 5.
#![tactic(auto)]

pub mod animation;
