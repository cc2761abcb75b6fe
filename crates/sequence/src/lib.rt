// Kinds 0 to 2, cycle sequence: one step.
#![tactic(auto)]

mod step;

pub use step::{Events, events_at, events_cycle, events_in, missed_in_order, sequence_cycle};
