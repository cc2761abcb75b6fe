// The failure list, with the numbers of its answer packed into one.
#![tactic(auto)]

mod list;

pub use list::packed_failures;
