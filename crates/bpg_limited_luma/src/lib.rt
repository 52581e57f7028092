// 8-bit limited luma to full range, by a table (request 7/13).
#![tactic(auto)]

mod call;
mod plane;
mod table;

pub use call::limited_luma;
