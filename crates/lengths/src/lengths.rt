// The refusals of a trace's length and of the lengths of a record.
ghost use Rattle.std.specs.Prelude.{List, ◌≡◌, ℕ, length};
ghost use Rattle.lengths.specs.Lengths.{check_refusal};
ghost use Rattle.rules.specs.Refusals.{refusal_of};

use config::config_refusal;
use rules::{Config, FRAME_WORDS, Refusal};
use trace::frames_in;

// Refuses a configuration, a trace's length or the lengths of a record for it.
pub fn lengths_refusal(c: Config, trace: usize, rows: usize, words: usize) -> Result<(), Refusal>
    ensures { (ts rs ws : List ℕ) → length ts ≡ trace → length rs ≡ rows → length ws ≡ words → refusal_of result ≡ check_refusal c ts rs ws }
{
    config_refusal(c)?;
    let cycles = frames_in(trace);
    if !((trace % FRAME_WORDS == 0) & (cycles <= 65536)) {
        return Err(Refusal::TraceLength);
    }
    if !((rows == cycles) & (words == cycles)) {
        return Err(Refusal::SliceLength);
    }
    Ok(())
}
