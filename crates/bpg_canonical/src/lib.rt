// The canonical form of a BPG file (document 01: tidying): one form for each picture.
#![tactic(auto)]

mod comparison;
mod file;

pub use comparison::{Comparison, same_picture};
pub use file::{canonicalize, size};
