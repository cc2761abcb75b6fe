// One step, for a configuration and an open word that were tested: it looks at the family.
#![tactic(auto)]

mod family;

pub use family::step;
