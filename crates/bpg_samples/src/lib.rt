// Samples after decoding (request 7/13): the calls, under one name.
#![tactic(auto)]

pub use bpg_cmyk::cmyk;
pub use bpg_default_from_white::default_from_white;
pub use bpg_limited_luma::limited_luma;
pub use bpg_sample_check::Converted;
pub use bpg_unpremultiply::unpremultiply;
pub use bpg_ycgco::ycgco;
