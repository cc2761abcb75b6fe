// Runs of a checker that goes on after a failure, and that do not stop.
ghost use Rattle.trace.specs.Stretches.{Ran};
ghost use Rattle.runs.specs.Asks.{Fills};

use super::run::Run;
use super::step::CycleStep;
use trace::{Reached, Stretch, kept_at_end};

// Runs a stretch to its end.
pub struct Fill;

impl Run for Fill {
    ghost asks = { Fills };

    ghost leaves = { Ran };

    #[inline(never)]
    fn run<S: CycleStep>(
        stepper: S,
        trace: &[u32],
        rows: &mut [u32],
        words: &mut [u64],
        s: Stretch,
    ) -> Reached {
        let from = s.from;
        let to = s.to;
        let mut word = s.word;
        let last = kept_at_end(words, s.at, to, s.kept);
        for at in s.at..to {
            let next = stepper.step(word, trace, from + at);
            word = next.word;
            rows[at] = next.row;
            words[at] = word;
        }
        Reached {
            at: to,
            word,
            kept: last,
        }
    }
}
