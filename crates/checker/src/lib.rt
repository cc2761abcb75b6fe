// What the viewer calls on one checker: a step by value, and the open count.
#![tactic(auto)]

mod count;
mod monitor;

pub use count::open_count;
pub use monitor::{Monitor, Stepped};
