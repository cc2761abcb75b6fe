// The recheck after an edit.
#![tactic(auto)]

mod edit;

pub use edit::{RecheckResult, Rechecked, recheck};
