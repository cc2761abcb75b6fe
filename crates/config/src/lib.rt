// The refusal of a configuration.
#![tactic(auto)]

mod config;

pub use config::config_refusal;
