// A count for each mark.
#![tactic(auto)]

mod tally;

pub use tally::Tally;
