// The configuration of the numbers that the C host passes.
#![tactic(auto)]

mod numbered;

pub use numbered::config_of;
