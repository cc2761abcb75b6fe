// What kind 7 looks for at P.
#![tactic(auto)]

mod wires;

pub use wires::{Expected, expected_wires};
