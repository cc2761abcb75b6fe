// A pass over a trace, block after block.
ghost use Rattle.std.specs.Prelude.{◌≡◌, ◌+◌, ◌≤◌, ℕ, List, length};
ghost use Rattle.rules.specs.declared.config.Config.{Config};
ghost use Rattle.rules.specs.Config.{Good};
ghost use Rattle.rules.specs.Frame.{Trace};
ghost use Rattle.trace.specs.Traces.{frames, frame_at};
ghost use Rattle.blocks.specs.Blocks.{Passing, Block};

use blocks::{BlockRun, Buffers, run_block};
use marked::BLOCK;
use rules::Config;
use trace::frames_in;

// What a pass does with the entries of a block. It goes on from a number, and may store in a list.
pub trait Visit {
    // what it asks for of the m cycles from t on, of the list as it is, and of the number
    ghost asks: { Config → Trace → ℕ → ℕ → List ℕ → ℕ → Type 0 };

    // what it has done for them: of the list and the number before, and of both behind
    ghost does: { Config → Trace → ℕ → ℕ → List ℕ → ℕ → List ℕ → ℕ → Type 0 };

    // what a pass over n cycles asks for of the list
    ghost holds: { Config → Trace → ℕ → List ℕ → Type 0 };

    // The block was run from the word before it. Answers the number behind it.
    fn visit(
        c: Config,
        trace: &[u32],
        t: usize,
        word: u64,
        block: BlockRun,
        buffers: &Buffers,
        list: &mut [u32],
        at: usize,
    ) -> usize
        requires { (Passing c trace.now t word) × (Block c trace.now t block.cycles buffers.now.rows buffers.now.words buffers.now.picked block.marked) × (asks c (frame_at trace.now) t block.cycles list.old at) }
        ensures { does c (frame_at trace.now) t block.cycles list.old at list.new result };

    // nothing is done for no cycle
    ghost none: { (c : Config) (tr : Trace) (l : List ℕ) → does c tr 0 0 l 0 l 0 };

    // what is done for a block adds to what was done for the cycles before it
    ghost more: { (c : Config) (tr : Trace) (t m : ℕ) (l₀ l l' : List ℕ) (x y : ℕ) → does c tr 0 t l₀ 0 l x → does c tr t m l x l' y → does c tr 0 (t + m) l₀ 0 l' y };

    // and a block gets what it asks for
    ghost fits: { (c : Config) (tr : Trace) (n t m : ℕ) (l₀ l : List ℕ) (x : ℕ) → t + m ≤ n → n ≤ 65536 → holds c tr n l₀ → does c tr 0 t l₀ 0 l x → asks c tr t m l x };

    // the list keeps its length
    ghost as_long: { (c : Config) (tr : Trace) (t m : ℕ) (l l' : List ℕ) (x y : ℕ) → does c tr t m l x l' y → length l' ≡ length l };
}

// Goes over a trace, and answers the number behind its last block.
pub fn pass<V: Visit>(c: Config, trace: &[u32], list: &mut [u32]) -> usize
    requires { (Good c) × (frames trace.now ≤ 65536) × (V.holds c (frame_at trace.now) (frames trace.now) list.old) }
    ensures { V.does c (frame_at trace.now) 0 (frames trace.now) list.old 0 list.new result }
{
    let cycles = frames_in(trace.len());
    let mut buffers = Buffers {
        rows: [0; BLOCK],
        words: [0; BLOCK],
        picked: [0; BLOCK],
    };
    let mut word: u64 = 0;
    let mut at: usize = 0;
    let mut t: usize = 0;
    // Each turn goes on by as many cycles as the block answers, so no range has the steps.
    while t < cycles {
        let block = run_block(c, trace, t, word, &mut buffers);
        at = V::visit(c, trace, t, word, block, &buffers, list, at);
        word = block.word;
        t += block.cycles;
    }
    at
}
