// How the checkers of each family step, and one run of a stretch by the family of the checker.
#![tactic(auto)]

mod family;
mod sequence_step;
mod stability_step;
mod time_step;
mod transition_step;
mod value_step;

pub use family::run_family;
pub use sequence_step::SequenceStep;
pub use stability_step::StabilityStep;
pub use time_step::{ErrorStep, IgnoringStep, RestartingStep};
pub use transition_step::{DescendingStep, TransitionStep};
pub use value_step::ValueStep;
