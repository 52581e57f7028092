// The HEVC headers of a BPG file: the alpha plane's and the colour's, their lengths, trailing bits, and refusals.
#![tactic(auto)]

pub mod header;
pub mod headers;
mod trailing;
