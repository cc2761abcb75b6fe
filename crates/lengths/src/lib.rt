// The refusals of a trace's length and of the lengths of a record.
#![tactic(auto)]

mod lengths;

pub use lengths::lengths_refusal;
