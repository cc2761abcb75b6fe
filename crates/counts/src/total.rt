// Totals of the marks.
ghost use Rattle.rules.specs.Refusals.{refusal_of};
ghost use Rattle.counts.specs.Counts.{TotalsAnswer};
ghost use Rattle.counts.specs.Totals.{counts_of};

use super::rows::marks_in;
use rules::{MARKS, Refusal};

// How many rows have each mark, over up to 65,536 rows; more are refusal 5.
pub fn totals(rows: &[u32]) -> Result<[u32; MARKS], Refusal>
    ensures { TotalsAnswer rows.now (refusal_of result) (counts_of result) }
{
    if 65536 < rows.len() {
        return Err(Refusal::SliceLength);
    }
    let tally = marks_in(rows, 0, rows.len());
    Ok(tally.counts)
}
