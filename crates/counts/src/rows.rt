// The marks of a stretch of rows.
ghost use Rattle.std.specs.Prelude.{◌≤◌, length};
ghost use Rattle.counts.specs.Counts.{AreMarks};

use halves::{half_of, with_halves};
use tally::Tally;

// How many of the rows `from` to `to` - 1 have each mark. Of an odd number of rows the last is counted by itself.
pub fn marks_in(rows: &[u32], from: usize, to: usize) -> Tally
    requires { (from ≤ to) × (to ≤ length rows.now) × (to ≤ 65536) }
    ensures { AreMarks rows.now from to result.counts }
{
    let mut tally = Tally::all(0);
    let mut at = from;
    // Each turn goes on by what `half_of` answers, so no range has the steps.
    while at + 1 < to {
        let half = half_of(to - at);
        tally = with_halves(rows, at, half, tally);
        at = at + half + half;
    }
    if to <= at {
        return tally;
    }
    tally.with(rows[at])
}
