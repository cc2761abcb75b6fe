// Runs of a stretch, by any way of stepping a checker that goes on: to its end, or up to a kept word; and the same of a fatal checker up to its first failure.
#![tactic(auto)]

mod fill;
mod run;
mod seek;
mod step;
mod watch;
mod watch_fill;
mod watch_seek;

pub use fill::Fill;
pub use run::Run;
pub use seek::Seek;
pub use step::CycleStep;
pub use watch::Watch;
