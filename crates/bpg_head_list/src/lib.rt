// The head of a file as a list of numbers, for callers that do not have its type.
#![tactic(auto)]

mod list;

pub use list::head;
