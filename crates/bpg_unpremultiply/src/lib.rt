// Premultiplied colour recovered (request 7/13).
#![tactic(auto)]

mod call;
mod pixel;
mod planes;

pub use call::unpremultiply;
