// The bench step over a lent table of configurations.
ghost use Rattle.bench.specs.Bench.{BenchAnswer};

use bench::bench;
use rules::Config;

// One step of every checker of the table, each on its own frame, word and row. Answers 0, or 256 times the refusal and the first bad checker's number (0 for
// refusals 9 and 5); refused: words and rows are as they were. All checkers are tested before the first is stepped.
#[unsafe(no_mangle)]
pub extern "C" fn selvedgeon_bench(
    table: &[Config],
    frames: &[u32],
    words: &mut [u64],
    rows: &mut [u32],
) -> u32
    ensures { BenchAnswer table.now frames.now words.old rows.old words.new rows.new result }
{
    match bench(table, frames, words, rows) {
        Ok(()) => 0,
        Err(bad) => bad.number(),
    }
}
