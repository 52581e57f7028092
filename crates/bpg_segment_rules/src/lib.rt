// JPEG segments (request 10/13): what a run of segments is, what import answers, and the theorems over three payloads. The definitions are in
// specs/, their laws in proofs/.
#![tactic(auto)]

mod answer;

pub use answer::Imported;
