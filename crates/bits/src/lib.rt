// Bits of words: words of given bits, and wires cut out of a word.
#![tactic(auto)]

mod cut;
mod mask;

pub use cut::{ascending, descending, downward, masked, masked_ascending, upward};
pub use mask::{low_ones, without};
