// What a failure does to a fatal checker.
#![tactic(auto)]

mod failure;

pub use failure::{fails, going_on, stop_at_failure};
