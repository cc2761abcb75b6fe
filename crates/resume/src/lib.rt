// The run of a recheck, for input that was tested.
#![tactic(auto)]

mod run;

pub use run::{Run, resume};
