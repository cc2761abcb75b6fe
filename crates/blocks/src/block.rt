// A block is run as a whole, so that the kind is looked at once for it. Its rows and words stand in lent arrays, and so do its cycles that have entries.
ghost use Rattle.std.specs.Prelude.{◌≡◌, ◌+◌, ◌≤◌, ◌<◌};
ghost use Rattle.trace.specs.Traces.{frames};
ghost use Rattle.marked.specs.Picks.{block_cycles};
ghost use Rattle.blocks.specs.Blocks.{Passing, Block, CycleIn};

use engine::run;
use marked::{BLOCK, pick_marked};
use rules::{Config, Frame};
use trace::{Stretch, frame_at, frames_in};

// The rows of a block, the word behind each of its cycles, and its cycles that have entries.
#[derive(Drop)]
pub struct Buffers {
    pub rows: [u32; BLOCK],
    pub words: [u64; BLOCK],
    pub picked: [usize; BLOCK],
}

// How many cycles a block has, how many of them have mark 1 or 2, and the word before the cycle behind it.
#[derive(Clone, Copy)]
pub struct BlockRun {
    pub cycles: usize,
    pub marked: usize,
    pub word: u64,
}

// Runs the block from cycle t on, which is shorter at the end of the trace.
pub fn run_block(c: Config, trace: &[u32], t: usize, word: u64, buffers: &mut Buffers) -> BlockRun
    requires { (Passing c trace.now t word) × (t < frames trace.now) }
    ensures { (Block c trace.now t result.cycles buffers.new.rows buffers.new.words buffers.new.picked result.marked) × (Passing c trace.now (t + result.cycles) result.word) × (0 < result.cycles) }
{
    let left = frames_in(trace.len()) - t;
    let cycles = left.min(BLOCK);
    let stretch = Stretch {
        from: t,
        at: 0,
        to: cycles,
        stops: false,
        word,
        kept: 0,
    };
    let reached = run(c, trace, &mut buffers.rows, &mut buffers.words, stretch);
    let marked = pick_marked(&buffers.rows, cycles, &mut buffers.picked);
    BlockRun {
        cycles,
        marked,
        word: reached.word,
    }
}

// What the entries of a cycle are found from.
#[derive(Clone, Copy)]
pub struct Cycle {
    pub t: usize,
    pub word: u64,
    pub frame: Frame,
    pub row: u32,
}

// Cycle k of a block. The word before the block's first cycle is `word`, before any other it is the one after the cycle before.
pub fn picked_cycle(trace: &[u32], t: usize, word: u64, buffers: &Buffers, k: usize) -> Cycle
    requires { (k < block_cycles) × (t + k < frames trace.now) × (frames trace.now ≤ 65536) }
    ensures { CycleIn trace.now t word buffers.now.rows buffers.now.words k result }
{
    let frame = frame_at(trace, t + k);
    let before = if k == 0 { word } else { buffers.words[k - 1] };
    Cycle {
        t: t + k,
        word: before,
        frame,
        row: buffers.rows[k],
    }
}
