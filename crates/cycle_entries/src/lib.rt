// The entries of one cycle of a trace: how many there are, and their words in the list.
#![tactic(auto)]

mod kinds;
mod lost;

pub use kinds::{entries_in, write_entries};
