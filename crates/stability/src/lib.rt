// Kind 8, stability after a trigger: one step.
#![tactic(auto)]

mod step;

pub use step::{
    Seen, Tracked, seen_at, seen_in, stability_cycle, tracked_at, tracked_cycle, tracked_in,
};
