// A line of a table, built in an array of 256 bytes and written by one call. What does not fit is left out.
#![tactic(auto)]

mod line;
mod number;
mod wires;

pub use line::Line;
pub use wires::Sample;
