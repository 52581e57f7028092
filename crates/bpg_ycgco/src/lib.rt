// YCgCo (request 7/13): red, green and blue from Y, Cg and Co.
#![tactic(auto)]

mod call;
mod pixel;
mod planes;

pub use call::ycgco;
