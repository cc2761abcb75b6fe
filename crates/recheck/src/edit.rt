// The recheck after an edit.
ghost use Rattle.std.specs.Prelude.{◌≡◌, ◌≤◌, length};
ghost use Rattle.rules.specs.Refusals.{refusal_of, cycle_of};
ghost use Rattle.trace.specs.Runs.{kept_at};
ghost use Rattle.recheck.specs.Answers.{end_of, changes_of, numbers_of};
ghost use Rattle.recheck.specs.Rechecks.{RecheckAnswer};

use recheck_refusals::recheck_refusal;
use resume::resume;
use rules::{Config, MARKS, Refusal};
use signed_changes::changes_of;

// The cycle where a recheck ended, and by how much each mark's count changed.
#[derive(Clone, Copy)]
pub struct Rechecked {
    pub end: usize,
    pub changes: [i32; MARKS],
}

// The same for the C host, in numbers: the refusal number or 0, the lowest cycle whose kept word is impossible where that is why it is refused (7), else 0; the
// end and the changes; refused: both 0.
#[repr(C)]
#[derive(Clone, Copy)]
pub struct RecheckResult {
    pub refusal: u32,
    pub cycle: usize,
    pub end: usize,
    pub changes: [i32; MARKS],
}

impl From<Result<Rechecked, Refusal>> for RecheckResult {
    ghost from_gives = { λ answer numbers. numbers ≡ numbers_of answer };

    fn from(answer: Result<Rechecked, Refusal>) -> RecheckResult {
        match answer {
            Ok(done) => {
                let changes = done.changes;
                RecheckResult {
                    refusal: 0,
                    cycle: 0,
                    end: done.end,
                    changes,
                }
            }
            Err(refusal) => RecheckResult {
                refusal: refusal.number(),
                cycle: refusal.cycle(),
                end: 0,
                changes: [0; MARKS],
            },
        }
    }
}

// Goes on from the kept word before cycle a, over the edited cycles a to b-1, and further until its word is the kept one. Refused with 1 to 7, 7 for any kept
// word that is impossible: all are tested before anything is written, and rows and words are as they were.
pub fn recheck(
    c: Config,
    trace: &[u32],
    rows: &mut [u32],
    words: &mut [u64],
    a: usize,
    b: usize,
) -> Result<Rechecked, Refusal>
    ensures { RecheckAnswer c trace.now rows.old words.old a b rows.new words.new (refusal_of result) (cycle_of result) (end_of result) (changes_of result) }
{
    recheck_refusal(c, trace.len(), rows.len(), words, a, b)?;
    let word = kept_before(words, a);
    let run = resume(c, trace, rows, words, a, b, word);
    Ok(Rechecked {
        end: run.end,
        changes: changes_of(run.tally),
    })
}

// The kept word before cycle a: 0 before cycle 0.
fn kept_before(words: &[u64], a: usize) -> u64
    requires { a ≤ length words.now }
    ensures { result ≡ kept_at words.now a }
{
    if a == 0 { 0 } else { words[a - 1] }
}
