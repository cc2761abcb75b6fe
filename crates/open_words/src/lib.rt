// The refusal of an open word to go on from.
#![tactic(auto)]

mod words;

pub use words::{is_possible, refusal};
