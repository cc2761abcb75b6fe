// A dump that is cut: that it is read as if it were not, as a claim over any pieces, and a caller that makes two of it.
#![tactic(auto)]

mod cuts;

pub use cuts::load_cut;
