// The ports of a configuration, and the value that is expected at P.
#![tactic(auto)]

mod ports;

pub use ports::ports_fit;
