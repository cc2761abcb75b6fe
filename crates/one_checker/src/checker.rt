// What a bench does with one checker of its table.
ghost use Rattle.std.specs.Prelude.{◌≡◌, ◌<◌, T, length, get_or};
ghost use Rattle.rules.specs.Config.{Good};
ghost use Rattle.rules.specs.Possible.{possible, word_refusal};
ghost use Rattle.rules.specs.Refusals.{refusal_of, cycle_of};
ghost use Rattle.trace.specs.Traces.{frames as framesOf};
ghost use Rattle.one_checker.specs.One.{stepped_words, stepped_rows};

use config::config_refusal;
use one_step::step;
use open_words::is_possible;
use rules::{Config, Refusal};
use trace::frame_at;

// Refuses a checker or its open word. The two tests are called here, as in `open_words::refusal`: a call of that took a bench 1.42 of the time before.
pub fn test_one(c: Config, word: u64) -> Result<(), Refusal>
    ensures number { refusal_of result ≡ word_refusal c word }
    ensures no_cycle { cycle_of result ≡ 0 }
{
    config_refusal(c)?;
    if is_possible(c, word) {
        Ok(())
    } else {
        Err(Refusal::OpenWord(0))
    }
}

// Steps checker k, which was tested.
pub fn step_one(c: Config, frames: &[u32], words: &mut [u64], rows: &mut [u32], k: usize)
    requires { (Good c) × (T (possible c (get_or words.old k 0))) × (k < framesOf frames.now) × (k < length words.old) × (k < length rows.old) }
    ensures { (words.new ≡ stepped_words c frames.now words.old k) × (rows.new ≡ stepped_rows c frames.now words.old rows.old k) }
{
    let next = step(c, words[k], frame_at(frames, k));
    words[k] = next.word;
    rows[k] = next.row;
}
