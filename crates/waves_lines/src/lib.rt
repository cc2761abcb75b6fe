// The lines of the waves: the header, and those of a cycle.
#![tactic(auto)]

mod change;
mod cycle_lines;
mod header;
mod name;

pub use cycle_lines::put_cycle;
pub use header::put_header;
