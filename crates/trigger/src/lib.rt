// Kinds 7 and 8, the checks after a trigger: what their windows have in common.
#![tactic(auto)]

mod window;

pub use window::{is_tested, sees_trigger};
