// What the programs over cases share: the cases of standard input, and text on standard output. What is printed is part of no contract: a program's
// output is held to its file `stdout`.
#![tactic(auto)]

mod input;
mod numbers;
pub mod text;

pub use input::{ShowCase, for_each_case};
pub use numbers::bytes_at;
