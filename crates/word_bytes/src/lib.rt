// A 64-bit word in eight lent bytes: read and written.
#![tactic(auto)]

mod bytes;

pub use bytes::{load, store};
