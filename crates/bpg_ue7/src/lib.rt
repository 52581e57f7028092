// The numbers of a BPG file that are coded in bytes, ue7(n): read at a position in a region.
#![tactic(auto)]

pub mod ue7;
