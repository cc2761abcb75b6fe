// The recheck's end and changes in a lent slice, and its refusal and the cycle of an impossible word in one number.
ghost use Rattle.std.specs.Prelude.{◌≡◌, ◌/◌, ◌%◌, ◌<◌};
ghost use Rattle.rules.specs.Refusals.{refusal_of, cycle_of};
ghost use Rattle.lent_changes.specs.Answers.{HostRecheck};

use lengths::lengths_refusal;
use recheck::recheck;
use rules::{Config, MARKS, Refusal};
use stored_changes::store_changes;

// The recheck after an edit of cycles a to b-1. Answers 2^32 times the refusal and, where that is 7, the lowest cycle whose word is impossible; not refused, the
// lent numbers become the cycle where it ended and the change of each mark. Refusals 1 to 7, 5 also where not one number more than there are marks is lent;
// refused: all is as it was.
pub fn recheck_into(
    config: Config,
    trace: &[u32],
    rows: &mut [u32],
    words: &mut [u64],
    a: u64,
    b: u64,
    answer: &mut [i32],
) -> u64
    ensures { HostRecheck config trace.now rows.old words.old a b answer.old rows.new words.new answer.new (result / 4294967296) (result % 4294967296) }
{
    match stored(config, trace, rows, words, a, b, answer) {
        Ok(()) => 0,
        Err(refusal) => packed(refusal.number(), refusal.cycle()),
    }
}

// The recheck, with its end and its changes in the lent numbers.
fn stored(
    config: Config,
    trace: &[u32],
    rows: &mut [u32],
    words: &mut [u64],
    a: u64,
    b: u64,
    answer: &mut [i32],
) -> Result<(), Refusal>
    ensures rechecked { HostRecheck config trace.now rows.old words.old a b answer.old rows.new words.new answer.new (refusal_of result) (cycle_of result) }
    ensures cycle_low { cycle_of result < 4294967296 }
{
    if answer.len() != 1 + MARKS {
        lengths_refusal(config, trace.len(), rows.len(), words.len())?;
        return Err(Refusal::SliceLength);
    }
    let done = recheck(config, trace, rows, words, a as usize, b as usize)?;
    let changes = done.changes;
    store_changes(answer, done.end as i32, changes);
    Ok(())
}

// The refusal and the cycle in one number.
fn packed(refusal: u32, cycle: usize) -> u64
    requires { cycle < 4294967296 }
    ensures { (result / 4294967296 ≡ refusal) × (result % 4294967296 ≡ cycle) }
{
    0x1_0000_0000 * refusal as u64 + cycle as u64
}
