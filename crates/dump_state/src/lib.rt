// A dump that arrives in pieces: what a reader keeps from call to call, the state before the first piece, and what every call tests before it reads.
#![tactic(auto)]

mod begins;
mod state;
mod tests;

pub use begins::begin;
pub use state::{Read, State};
pub use tests::{give_again, length_refusal, refuse};
