// The dump on standard input, read in blocks into frames, and wires that are not connected taken as 1.
#![tactic(auto)]

mod reading;
mod taken;

pub use reading::read_dump;
pub use taken::{count_frames, take_as_one};
