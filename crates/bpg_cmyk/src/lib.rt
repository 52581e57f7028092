// CMYK (request 7/13): each of the four planes is M minus its plane.
#![tactic(auto)]

mod call;
mod plane;

pub use call::cmyk;
