// A fatal checker that has failed: runs of a stretch.
#![tactic(auto)]

mod fill;
mod run;
mod seek;

pub use run::stay;
