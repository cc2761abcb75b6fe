// A bus of wires under its declared range.
#![tactic(auto)]

mod range;

pub use range::Range;
