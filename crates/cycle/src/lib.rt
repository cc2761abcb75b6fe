// What the steps of all families have in common: reset and enable, the words of a frame as they are read, the row of marks, and what a step leaves.
#![tactic(auto)]

mod marks;
mod outcome;
mod reset;
mod wires;

pub use marks::{Marks, check_row, to_bit, window_row};
pub use outcome::Outcome;
pub use reset::{is_enabled, out_of_reset};
pub use wires::sample;
