// Runs of a fatal checker that stop where they meet the kept words.
ghost use Rattle.std.specs.Prelude.{true, ◌≡◌};
ghost use Rattle.rules.specs.Config.{fatally};
ghost use Rattle.trace.specs.Stretches.{Watched};
ghost use Rattle.runs.specs.Asks.{Watches};

use super::step::CycleStep;
use fatal::fails;
use rules::STOPPED;
use trace::{Reached, Stretch};

// Runs a stretch up to the first entry where the word is the kept one, or over the first row with mark 1 or 2, where the word is 2^63.
pub fn seek<S: CycleStep>(
    stepper: S,
    trace: &[u32],
    rows: &mut [u32],
    words: &mut [u64],
    s: Stretch,
) -> Reached
    requires { (Watches (S.config stepper) trace.now rows.old words.old s) × (s.stops ≡ true) }
    ensures { Watched (fatally (S.config stepper)) trace.now rows.old words.old s rows.new words.new result }
{
    let from = s.from;
    let to = s.to;
    let mut word = s.word;
    let mut kept = s.kept;
    for at in s.at..to {
        if word == kept {
            return Reached { at, word, kept };
        }
        let next = stepper.step(word, trace, from + at);
        kept = words[at];
        rows[at] = next.row;
        if fails(next.row) {
            words[at] = STOPPED;
            let behind = at + 1;
            return Reached {
                at: behind,
                word: STOPPED,
                kept,
            };
        }
        word = next.word;
        words[at] = word;
    }
    Reached { at: to, word, kept }
}
