// Kind 6, transition: one step.
#![tactic(auto)]

mod step;

pub use step::{
    Known, Values, all_descend, descending_at, known_at, known_in, transition_cycle, values_at,
    values_cycle, values_in,
};
