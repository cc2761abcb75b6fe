// What the program `marks` says in words: how it is used, what is wrong with its arguments, its refusals, and the head of its table.
#![tactic(auto)]

mod head;
mod refusals;
mod usage;

pub use head::print_head;
pub use refusals::{print_config_refusal, print_refusal};
pub use usage::{print_fault, print_usage};
