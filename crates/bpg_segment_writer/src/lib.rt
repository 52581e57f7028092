// Three payloads written as a run of JPEG segments.
#![tactic(auto)]

mod emit;
mod run;
mod size;

pub use run::write_run;
