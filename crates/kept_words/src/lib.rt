// The lowest impossible word of a record.
#![tactic(auto)]

mod scan;

pub use scan::first_impossible;
