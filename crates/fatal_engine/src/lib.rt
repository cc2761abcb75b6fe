// One run of a stretch of a fatal checker, for a configuration and an open word that were tested.
#![tactic(auto)]

mod run;

pub use run::run_fatal;
