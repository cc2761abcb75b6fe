// The refusal of an edit: of its lengths and of its range.
ghost use Rattle.std.specs.Prelude.{List, ◌≡◌, ℕ, ◌-◌, ◌*◌, eqb, length};
ghost use Rattle.rules.specs.Frame.{frame_words};
ghost use Rattle.rules.specs.Refusals.{refusal_of};
ghost use Rattle.edit_samples.specs.Samples.{edit_refusal};

use lengths::lengths_refusal;
use rules::{Config, FRAME_WORDS, Refusal};

// Refuses a configuration, the lengths of a trace, its record and an edit's samples, or the edit's range.
pub fn edit_refusal(
    c: Config,
    trace: usize,
    rows: usize,
    words: usize,
    a: usize,
    b: usize,
    samples: usize,
) -> Result<(), Refusal>
    ensures { (ts rs ws ss : List ℕ) → length ts ≡ trace → length rs ≡ rows → length ws ≡ words → length ss ≡ samples → refusal_of result ≡ edit_refusal c ts rs ws a b ss }
{
    lengths_refusal(c, trace, rows, words)?;
    if !samples_fit(samples, a, b) {
        return Err(Refusal::SliceLength);
    }
    if !((a <= b) & (b <= rows)) {
        return Err(Refusal::EditRange);
    }
    Ok(())
}

// Whether so many words are the samples of cycles a to b-1: none where a is above b.
fn samples_fit(words: usize, a: usize, b: usize) -> bool
    ensures { result ≡ eqb words (frame_words * (b - a)) }
{
    let due = if a < b { b - a } else { 0 };
    (words % FRAME_WORDS == 0) & (words / FRAME_WORDS == due)
}
