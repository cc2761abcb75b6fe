// One checker of a bench's table.
#![tactic(auto)]

mod checker;

pub use checker::{step_one, test_one};
