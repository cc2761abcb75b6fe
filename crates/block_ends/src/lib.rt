// Where the blocks of a recheck end, and whether there is one more.
#![tactic(auto)]

mod block;
mod stop;

pub use block::block_end;
pub use stop::goes_on;
