// The numbers of a BPG file that are coded in bits: n-bit fields and ue(v), each read at a position in a region.
#![tactic(auto)]

pub mod bits;
pub mod exp_golomb;
pub mod short;
