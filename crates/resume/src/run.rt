// The run of a recheck.
ghost use Rattle.resume.specs.Resumes.{Resumable, Resumed};

use block_ends::{block_end, goes_on};
use counts::marks_in;
use engine::run;
use rules::Config;
use tally::Tally;
use trace::Stretch;

// Where a run ended, and 65,536 more than each mark's change: so no count falls below 0 on the way.
#[derive(Clone, Copy)]
pub struct Run {
    pub end: usize,
    pub tally: Tally,
}

// Runs from cycle a on with the word before it, for input that was tested, a block of cycles at a time. A block's marks are counted before and after it is
// run: the rows behind the end have the same marks in both counts.
pub fn resume(
    c: Config,
    trace: &[u32],
    rows: &mut [u32],
    words: &mut [u64],
    a: usize,
    b: usize,
    word: u64,
) -> Run
    requires { Resumable c trace.now rows.old words.old a b word }
    ensures { Resumed c trace.now rows.old words.old a b rows.new words.new result.end result.tally.counts }
{
    let n = rows.len();
    let mut t = a;
    let mut own = word;
    let mut kept = word;
    let mut tally = Tally::all(65536);
    // Whether there is one more block depends on the words that the last one reached, so no range or iterator has the turns.
    while (t < n) & goes_on(t, b, own, kept) {
        let to = block_end(a, t, b, n);
        let old = marks_in(rows, t, to);
        let block = Stretch {
            from: 0,
            at: t,
            to,
            stops: b <= t,
            word: own,
            kept,
        };
        let reached = run(c, trace, rows, words, block);
        tally = tally.moved(old, marks_in(rows, t, to));
        t = reached.at;
        own = reached.word;
        kept = reached.kept;
    }
    Run { end: t, tally }
}
