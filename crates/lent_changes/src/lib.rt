// The recheck, with its end and a change for each mark in a lent slice.
#![tactic(auto)]

mod changes;

pub use changes::recheck_into;
