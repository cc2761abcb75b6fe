// The totals, with a number for each mark in a lent slice.
#![tactic(auto)]

mod marks;

pub use marks::totals_into;
