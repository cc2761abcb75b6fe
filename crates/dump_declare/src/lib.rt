// The declarations of a dump: what is known between two words, and one function for each word that may be due.
#![tactic(auto)]

mod codes;
mod commands;
mod head;
mod place;
mod vars;

pub use head::{Head, at_place};
pub use place::declaration;
