// The limits of a configuration's numbers.
#![tactic(auto)]

mod limits;

pub use limits::within_limits;
