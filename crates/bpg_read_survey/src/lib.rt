// Surveying a BPG file: all that reading finds but for the entries, or a refusal; from the start, or on from a head that the caller has.
#![tactic(auto)]

mod given;
mod rest;

pub use given::{FileSurvey, Surveyed, survey};
pub use rest::RestSurvey;
