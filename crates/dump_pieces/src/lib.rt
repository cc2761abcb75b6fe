// The calls of a dump that arrives in pieces: a piece of any length, and the end. The state of the reader goes in and comes back by value.
#![tactic(auto)]

mod ends;
mod pieces;

pub use ends::end;
pub use pieces::piece;
