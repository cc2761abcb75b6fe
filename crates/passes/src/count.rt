// The number of entries.
ghost use Rattle.std.specs.Prelude.{◌≡◌, ◌*◌, ◌≤◌, length};
ghost use Rattle.rules.specs.Config.{Good};
ghost use Rattle.trace.specs.Traces.{frames};
ghost use Rattle.passes.specs.Listed.{failures_of};
ghost use Rattle.passes.specs.Visits.{CountAsks, CountDoes, CountHolds, count_none, count_more, count_fits, count_long};

use super::pass::{Visit, pass};
use blocks::{BlockRun, Buffers, count_block};
use rules::Config;

// Adds the number of entries of a block, and leaves the list as it is.
struct Count;

impl Visit for Count {
    ghost asks = { CountAsks };

    ghost does = { CountDoes };

    ghost holds = { CountHolds };

    ghost none = { count_none };

    ghost more = { count_more };

    ghost fits = { count_fits };

    ghost as_long = { count_long };

    fn visit(
        c: Config,
        trace: &[u32],
        t: usize,
        word: u64,
        block: BlockRun,
        buffers: &Buffers,
        _list: &mut [u32],
        at: usize,
    ) -> usize {
        at + count_block(c, trace, t, word, block, buffers)
    }
}

// Counts the entries of a trace, block after block.
pub fn count_all(c: Config, trace: &[u32]) -> usize
    requires { (Good c) × (frames trace.now ≤ 65536) }
    ensures { (result ≡ length (failures_of c trace.now)) × (result ≤ 64 * 65536) }
{
    pass::<Count>(c, trace, &mut [])
}
