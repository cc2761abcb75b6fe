// The end and the changes of a recheck, stored in a lent slice.
#![tactic(auto)]

mod changes;

pub use changes::store_changes;
