// The marks of two stretches of rows that follow each other.
#![tactic(auto)]

mod paired;

pub use paired::{half_of, with_halves};
