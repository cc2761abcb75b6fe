// One step of a checker whose open word is in eight lent bytes.
#![tactic(auto)]

mod step;

pub use step::step_bytes;
