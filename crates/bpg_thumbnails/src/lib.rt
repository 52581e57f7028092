// The deep check (request 4/13): a file's thumbnails, and theirs, down to level 4.
#![tactic(auto)]

mod answer;
mod check;
mod levels;

pub use answer::Checked;
pub use check::check_thumbnails;
