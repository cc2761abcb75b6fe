// The two passes of the failure list over a trace: one counts the entries, one writes them.
#![tactic(auto)]

mod count;
mod pass;
mod write;

pub use count::count_all;
pub use write::write_all;
