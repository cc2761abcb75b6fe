// The refusals of a recheck.
#![tactic(auto)]

mod tests;

pub use tests::recheck_refusal;
