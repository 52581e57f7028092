// The extension block of a BPG file: its entries, and the animation control among them.
#![tactic(auto)]

pub mod block;
pub mod entry;
