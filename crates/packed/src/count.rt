// The open count and its refusal in one number.
ghost use Rattle.std.specs.Prelude.{◌/◌, ◌%◌};
ghost use Rattle.checker.specs.Calls.{CountAnswer};

use checker::open_count;
use rules::Config;

// How many checks an open word says are unfinished. Answers 256 times the refusal and the count. Refusals 1, 2, 3 and 7.
pub fn packed_open_count(config: Config, word: u64) -> u32
    ensures { CountAnswer config word (result / 256) (result % 256) }
{
    match open_count(config, word) {
        Ok(count) => count,
        Err(refusal) => 256 * refusal.number(),
    }
}
