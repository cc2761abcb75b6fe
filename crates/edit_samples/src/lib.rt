// The samples of an edit: their refusal, and their exchange with those of the trace.
#![tactic(auto)]

mod refusal;
mod swap;

pub use refusal::edit_refusal;
pub use swap::swap_words;
