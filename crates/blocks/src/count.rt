// The number of entries of a block.
ghost use Rattle.trace.specs.Traces.{frame_at};
ghost use Rattle.blocks.specs.Blocks.{Counted, Passing, Block};

use super::block::{BlockRun, Buffers, picked_cycle};
use cycle_entries::entries_in;
use rules::Config;

// Counts the entries of a block that was run from the word before it.
pub fn count_block(
    c: Config,
    trace: &[u32],
    t: usize,
    word: u64,
    block: BlockRun,
    buffers: &Buffers,
) -> usize
    requires { (Passing c trace.now t word) × (Block c trace.now t block.cycles buffers.now.rows buffers.now.words buffers.now.picked block.marked) }
    ensures { Counted c (frame_at trace.now) t block.cycles result }
{
    let picked = &buffers.picked[..block.marked];
    let mut count: usize = 0;
    for k in picked {
        let cycle = picked_cycle(trace, t, word, buffers, *k);
        let frame = cycle.frame;
        count += entries_in(c, cycle.word, frame, cycle.row, cycle.t);
    }
    count
}
