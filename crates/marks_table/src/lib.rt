// What the program `marks` writes of a checked trace: a line for each cycle, the failures, and the totals.
#![tactic(auto)]

mod failures_list;
mod names;
mod rows;
mod totals;

pub use failures_list::print_failures;
pub use rows::print_rows;
pub use totals::print_totals;
