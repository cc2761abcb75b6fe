// The first failure over the rows of several checkers.
#![tactic(auto)]

mod search;

pub use search::{FirstFailure, first_failure};
