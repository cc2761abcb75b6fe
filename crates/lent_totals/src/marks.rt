// The totals in a lent slice.
ghost use Rattle.rules.specs.Refusals.{refusal_of};
ghost use Rattle.lent_totals.specs.Answers.{HostTotals};

use counts::totals;
use rules::{MARKS, Refusal, refusal_number};

// How many rows have each mark, in as many lent numbers as there are marks. Answers the refusal number or 0: 5 for more than 65,536 rows, or where another
// number of numbers is lent; refused: they are as they were.
pub fn totals_into(rows: &[u32], counts: &mut [u32]) -> u32
    ensures { HostTotals rows.now counts.old counts.new result }
{
    refusal_number(&store_totals(rows, counts))
}

// The counts, in the lent numbers; refused: they are as they were.
fn store_totals(rows: &[u32], counts: &mut [u32]) -> Result<(), Refusal>
    ensures { HostTotals rows.now counts.old counts.new (refusal_of result) }
{
    if counts.len() != MARKS {
        return Err(Refusal::SliceLength);
    }
    let found = totals(rows)?;
    counts.copy_from_slice(&found);
    Ok(())
}
