// The line of text that shows what was read of a file, and the buffer that it is gathered in.
#![tactic(auto)]

pub mod line;
mod line_buffer;
