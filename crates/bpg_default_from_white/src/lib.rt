// Default colour from W (request 7/13): R·W/M to the nearest, where a file with the W plane has no colour profile.
#![tactic(auto)]

mod call;
mod plane;

pub use call::default_from_white;
