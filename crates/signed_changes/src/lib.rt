// The changes of the marks' counts as signed numbers.
#![tactic(auto)]

mod changes;

pub use changes::changes_of;
