// The entries, written.
ghost use Rattle.std.specs.Prelude.{◌≡◌, ◌*◌, ◌≤◌, length};
ghost use Rattle.std.proofs.lemmas.List.Edits.{sets};
ghost use Rattle.rules.specs.Config.{Good};
ghost use Rattle.trace.specs.Traces.{frames};
ghost use Rattle.listed.specs.Lists.{words_of};
ghost use Rattle.passes.specs.Listed.{failures_of};
ghost use Rattle.passes.specs.Visits.{WriteAsks, WriteDoes, WriteHolds, write_none, write_more, write_fits, write_long};

use super::pass::{Visit, pass};
use blocks::{BlockRun, Buffers, write_block};
use rules::Config;

// Writes the entries of a block from a place on, and answers the place behind them.
struct Write;

impl Visit for Write {
    ghost asks = { WriteAsks };

    ghost does = { WriteDoes };

    ghost holds = { WriteHolds };

    ghost none = { write_none };

    ghost more = { write_more };

    ghost fits = { write_fits };

    ghost as_long = { write_long };

    fn visit(
        c: Config,
        trace: &[u32],
        t: usize,
        word: u64,
        block: BlockRun,
        buffers: &Buffers,
        list: &mut [u32],
        at: usize,
    ) -> usize {
        write_block(c, trace, t, word, block, buffers, list, at)
    }
}

// Writes the entries of a trace, block after block, for a slice that holds them.
pub fn write_all(c: Config, trace: &[u32], list: &mut [u32])
    requires { (Good c) × (frames trace.now ≤ 65536) × (3 * length (failures_of c trace.now) ≤ length list.old) }
    ensures { list.new ≡ sets list.old 0 (words_of (failures_of c trace.now)) }
{
    pass::<Write>(c, trace, list);
}
