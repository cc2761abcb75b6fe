// What makes an open word impossible, as bits.
#![tactic(auto)]

mod words;

pub use words::misfit;
