// A trace's record: the full check.
#![tactic(auto)]

mod check;

pub use check::full_check;
