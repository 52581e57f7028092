// The parts of a file that its record names, and where its extension block lies.
#![tactic(auto)]

mod bounds;
mod parts;

pub use bounds::{BlockBounds, block_bounds};
pub use parts::{data, entry_at, payload};
