// The entries of a block, written.
ghost use Rattle.std.specs.Prelude.{◌+◌, ◌*◌, ◌≤◌, length};
ghost use Rattle.trace.specs.Traces.{frame_at};
ghost use Rattle.entries.specs.Entries.{Stored};
ghost use Rattle.blocks.specs.Blocks.{entries_from, Passing, Block};

use super::block::{BlockRun, Buffers, picked_cycle};
use cycle_entries::write_entries;
use rules::Config;

// Writes the entries of a block that was run from the word before it, from `at` on. Answers where the next one goes.
pub fn write_block(
    c: Config,
    trace: &[u32],
    t: usize,
    word: u64,
    block: BlockRun,
    buffers: &Buffers,
    list: &mut [u32],
    at: usize,
) -> usize
    requires { (Passing c trace.now t word) × (Block c trace.now t block.cycles buffers.now.rows buffers.now.words buffers.now.picked block.marked) × (at + 3 * length (entries_from c (frame_at trace.now) t block.cycles) ≤ length list.old) }
    ensures { Stored (entries_from c (frame_at trace.now) t block.cycles) list.old at list.new result }
{
    let picked = &buffers.picked[..block.marked];
    let mut next = at;
    for k in picked {
        let cycle = picked_cycle(trace, t, word, buffers, *k);
        let frame = cycle.frame;
        next = write_entries(c, cycle.word, frame, cycle.row, cycle.t, list, next);
    }
    next
}
