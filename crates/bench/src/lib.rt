// A bench: one step of every checker of a lent table, in two loops over it.
#![tactic(auto)]

mod table;

pub use table::{BadChecker, bench, step_all, test_all};
