// Entries of the failure list, written word by word.
#![tactic(auto)]

mod entry;

pub use entry::{write_attempts, write_entry, write_window};
