// Counts of the marks of rows.
#![tactic(auto)]

mod rows;
mod total;

pub use rows::marks_in;
pub use total::totals;
