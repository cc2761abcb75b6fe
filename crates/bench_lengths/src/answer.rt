// The lengths of what a bench is lent.
ghost use Rattle.std.specs.Prelude.{◌≡◌};
ghost use Rattle.rules.specs.Refusals.{refusal_of};
ghost use Rattle.bench_lengths.specs.Lengths.{lengths_refusal};

use rules::{FRAME_WORDS, Refusal};

// Refuses the lengths of a table, of its frames, words and rows: refusal 9, then 5.
pub fn lengths_answer(
    checkers: usize,
    frames: usize,
    words: usize,
    rows: usize,
) -> Result<(), Refusal>
    ensures { refusal_of result ≡ lengths_refusal checkers frames words rows }
{
    if 64 < checkers {
        return Err(Refusal::Checkers);
    }
    if !((frames == FRAME_WORDS * checkers) & ((words == checkers) & (rows == checkers))) {
        return Err(Refusal::SliceLength);
    }
    Ok(())
}
