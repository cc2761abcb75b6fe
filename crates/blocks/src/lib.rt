// Blocks of cycles: run, and their entries counted and written.
#![tactic(auto)]

mod block;
mod count;
mod write;

pub use block::{BlockRun, Buffers, run_block};
pub use count::count_block;
pub use write::write_block;
