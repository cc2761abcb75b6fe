// One run of a stretch, for a configuration and an open word that were tested.
#![tactic(auto)]

mod severity;

pub use severity::run;
