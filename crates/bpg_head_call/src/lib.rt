// The head of a BPG file for callers that go by it alone (request 9/13): the call, its numbers, and whether a head is a file's own.
#![tactic(auto)]

pub mod call;
