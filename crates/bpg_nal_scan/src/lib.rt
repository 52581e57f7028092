// NAL units cut off and judged by the emulation rules.
#![tactic(auto)]

mod scan;

pub use scan::scan_at;
