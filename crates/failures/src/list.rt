// The failure list of a trace.
ghost use Rattle.rules.specs.Refusals.{refusal_of};
ghost use Rattle.failures.specs.Answers.{count_of, ListAnswer};

use lengths::lengths_refusal;
use passes::{count_all, write_all};
use rules::{Config, Refusal};
use trace::frames_in;

// Writes three words for each failure and each illegal start of the trace: cycle, mark and start, in this order. Gives how many entries the list has.
// Refusals 1, 2, 3, 4, and 8 where the slice is too short; refused: it is as it was.
pub fn failures(c: Config, trace: &[u32], list: &mut [u32]) -> Result<usize, Refusal>
    ensures { ListAnswer c trace.now list.old list.new (refusal_of result) (count_of result) }
{
    let cycles = frames_in(trace.len());
    lengths_refusal(c, trace.len(), cycles, cycles)?;
    let count = count_all(c, trace);
    if list.len() / 3 < count {
        return Err(Refusal::ListRoom);
    }
    write_all(c, trace, list);
    Ok(count)
}
