// The refusal of the lengths of a table and of what is lent with it.
#![tactic(auto)]

mod answer;

pub use answer::lengths_answer;
