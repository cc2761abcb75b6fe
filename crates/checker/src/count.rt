// How many checks an open word says are unfinished.
ghost use Rattle.std.specs.Prelude.{◌≡◌};
ghost use Rattle.rules.specs.Refusals.{refusal_of, cycle_of};
ghost use Rattle.checker.specs.Calls.{count_of, CountAnswer};

use open_words::refusal;
use rules::{Config, Family, Refusal, STOPPED};

// The open count of a word; refusals 1, 2, 3 and 7.
pub fn open_count(c: Config, word: u64) -> Result<u32, Refusal>
    ensures answer { CountAnswer c word (refusal_of result) (count_of result) }
    ensures no_cycle { cycle_of result ≡ 0 }
{
    refusal(c, word)?;
    if word == STOPPED {
        return Ok(0);
    }
    Ok(match c.family() {
        Family::Sequence => u64::count_ones(word),
        _ => u32::from(word != 0),
    })
}
