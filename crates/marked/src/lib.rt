// The rows of a block of cycles that have mark 1 or 2.
#![tactic(auto)]

mod pick;

pub use pick::{BLOCK, pick_marked};
