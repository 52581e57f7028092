// The hourly batch (request 5/13): files that stand in one buffer, end to end, each read alone.
#![tactic(auto)]

mod call;
mod each;
mod lengths;

pub use call::batch;
