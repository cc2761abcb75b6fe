// The tests of a recheck, in the order of their numbers.
ghost use Rattle.std.specs.Prelude.{List, ◌≡◌, ℕ, length};
ghost use Rattle.rules.specs.Refusals.{refusal_of, cycle_of};
ghost use Rattle.recheck_refusals.specs.Refusals.{Refused};

use kept_words::first_impossible;
use lengths::lengths_refusal;
use rules::{Config, Refusal};

// Refuses a configuration, the lengths of a trace and its rows, the kept words and a range of cycles: a kept word that is impossible with its cycle, the lowest.
pub fn recheck_refusal(
    c: Config,
    trace: usize,
    rows: usize,
    words: &[u64],
    a: usize,
    b: usize,
) -> Result<(), Refusal>
    ensures { (ts rs : List ℕ) → length ts ≡ trace → length rs ≡ rows → Refused c ts rs words.now a b (refusal_of result) (cycle_of result) }
{
    lengths_refusal(c, trace, rows, words.len())?;
    if !((a <= b) & (b <= rows)) {
        return Err(Refusal::EditRange);
    }
    let spoiled = first_impossible(c, words);
    if spoiled < words.len() {
        return Err(Refusal::OpenWord(spoiled));
    }
    Ok(())
}
