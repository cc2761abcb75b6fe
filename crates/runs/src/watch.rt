// Runs of a fatal checker, up to its first failure.
ghost use Rattle.rules.specs.Config.{fatally};
ghost use Rattle.trace.specs.Stretches.{Watched};
ghost use Rattle.runs.specs.Asks.{Watches};

use super::run::Run;
use super::step::CycleStep;
use super::watch_fill::fill;
use super::watch_seek::seek;
use trace::{Reached, Stretch};

// Runs a stretch of the checker made fatal over its first row with mark 1 or 2, or else as far as a run goes.
pub struct Watch;

impl Run for Watch {
    ghost asks = { Watches };

    ghost leaves = { λ c. Watched (fatally c) };

    fn run<S: CycleStep>(
        stepper: S,
        trace: &[u32],
        rows: &mut [u32],
        words: &mut [u64],
        s: Stretch,
    ) -> Reached {
        if s.stops {
            seek(stepper, trace, rows, words, s)
        } else {
            fill(stepper, trace, rows, words, s)
        }
    }
}
