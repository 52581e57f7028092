// The numbers of a BPG file that are coded in bytes, ue7(n): measured, and written into a buffer.
#![tactic(auto)]

pub mod ue7;
