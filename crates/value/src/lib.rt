// Kind 7, the value after a trigger: one step.
#![tactic(auto)]

mod step;

pub use step::value_cycle;
