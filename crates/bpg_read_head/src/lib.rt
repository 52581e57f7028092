// The head of a BPG file: magic and flags, width and height, and the lengths of the data and of the extension block.
#![tactic(auto)]

pub mod flags;
pub mod head;
mod size;
