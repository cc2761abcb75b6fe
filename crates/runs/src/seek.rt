// Runs of a checker that goes on after a failure, and that stop where they meet the kept words.
ghost use Rattle.trace.specs.Stretches.{Ran};
ghost use Rattle.runs.specs.Asks.{Seeks};

use super::run::Run;
use super::step::CycleStep;
use trace::{Reached, Stretch};

// Runs a stretch up to the first entry where the word is the kept one. The kept word of an entry is read before it is written.
pub struct Seek;

impl Run for Seek {
    ghost asks = { Seeks };

    ghost leaves = { Ran };

    #[inline(never)]
    fn run<S: CycleStep>(
        stepper: S,
        trace: &[u32],
        rows: &mut [u32],
        words: &mut [u64],
        s: Stretch,
    ) -> Reached {
        let from = s.from;
        let to = s.to;
        let mut word = s.word;
        let mut kept = s.kept;
        for at in s.at..to {
            if word == kept {
                return Reached { at, word, kept };
            }
            let next = stepper.step(word, trace, from + at);
            kept = words[at];
            word = next.word;
            rows[at] = next.row;
            words[at] = word;
        }
        Reached { at: to, word, kept }
    }
}
