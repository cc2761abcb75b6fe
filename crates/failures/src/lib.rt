// The failure list: every failure and every illegal start of a trace, with the start of its check.
#![tactic(auto)]

mod list;

pub use list::failures;
