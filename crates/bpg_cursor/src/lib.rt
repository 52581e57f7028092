// A cursor over the entries of a file (document 01: the walker).
#![tactic(auto)]

mod cursor;
mod region;
mod step;

pub use cursor::{Cursor, first, resume};
pub use region::region_to;
pub use step::Step;
