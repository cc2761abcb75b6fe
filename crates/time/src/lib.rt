// Kinds 3 to 5, time: one step.
#![tactic(auto)]

mod step;

pub use step::time_cycle;
