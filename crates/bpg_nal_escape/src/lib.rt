// Emulation prevention undone and redone. Stretches between emulation prevention bytes are copied whole.
#![tactic(auto)]

mod escaping;
mod rules;
mod unescaping;

pub use escaping::escape;
pub use unescaping::unescape;
