// Runs of a fatal checker that do not stop on the way.
ghost use Rattle.std.specs.Prelude.{false, ◌≡◌};
ghost use Rattle.rules.specs.Config.{fatally};
ghost use Rattle.trace.specs.Stretches.{Watched};
ghost use Rattle.runs.specs.Asks.{Watches};

use super::step::CycleStep;
use fatal::fails;
use rules::STOPPED;
use trace::{Reached, Stretch, kept_at_end};

// Runs a stretch to its end, or over the first row with mark 1 or 2, where the word is 2^63.
pub fn fill<S: CycleStep>(
    stepper: S,
    trace: &[u32],
    rows: &mut [u32],
    words: &mut [u64],
    s: Stretch,
) -> Reached
    requires { (Watches (S.config stepper) trace.now rows.old words.old s) × (s.stops ≡ false) }
    ensures { Watched (fatally (S.config stepper)) trace.now rows.old words.old s rows.new words.new result }
{
    let from = s.from;
    let to = s.to;
    let mut word = s.word;
    let last = kept_at_end(words, s.at, to, s.kept);
    for at in s.at..to {
        let next = stepper.step(word, trace, from + at);
        rows[at] = next.row;
        if fails(next.row) {
            let before = words[at];
            words[at] = STOPPED;
            let behind = at + 1;
            return Reached {
                at: behind,
                word: STOPPED,
                kept: before,
            };
        }
        word = next.word;
        words[at] = word;
    }
    Reached {
        at: to,
        word,
        kept: last,
    }
}
