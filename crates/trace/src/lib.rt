// A lent trace as frames, and stretches of it.
#![tactic(auto)]

mod frame;
mod stretch;

pub use frame::{frame_at, frames_in};
pub use stretch::{Reached, Stretch, kept_at_end};
