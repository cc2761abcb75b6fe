// The open count and the first failure, with the numbers of an answer packed into one.
#![tactic(auto)]

mod count;
mod search;

pub use count::packed_open_count;
pub use search::packed_first_failure;
