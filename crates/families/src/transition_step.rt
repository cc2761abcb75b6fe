// The step of kind 6 in a loop.
ghost use Rattle.rules.specs.Config.{Good, GoesOn};
ghost use Rattle.rules.specs.Config.Family.{transition};
ghost use Rattle.transition.specs.Ports.{Descends};

use cycle::Outcome;
use rules::Config;
use runs::CycleStep;
use transition::{descending_at, known_at, values_at, values_cycle};

// One type for both steps, with a flag as a constant parameter, was tried: a ghost field beside such a parameter cannot be stated.
#[derive(Clone, Copy)]
pub struct TransitionStep {
    pub c: Config,
    ghost good: { Good c },
    ghost goes_on: { GoesOn transition c },
}

impl CycleStep for TransitionStep {
    ghost config = { λ s. s.c };

    #[inline(always)]
    fn step(self, word: u64, trace: &[u32], t: usize) -> Outcome {
        let c = self.c;
        values_cycle(c, word, values_at(c, trace, t), known_at(c, trace, t))
    }

    ghost goes_on = { λ s. s.goes_on.1 };
}

// The same with ports that are all declared descending: then no direction is looked at.
#[derive(Clone, Copy)]
pub struct DescendingStep {
    pub c: Config,
    ghost good: { Good c },
    ghost goes_on: { GoesOn transition c },
    ghost descends: { Descends c },
}

impl CycleStep for DescendingStep {
    ghost config = { λ s. s.c };

    #[inline(always)]
    fn step(self, word: u64, trace: &[u32], t: usize) -> Outcome {
        let c = self.c;
        values_cycle(c, word, descending_at(c, trace, t), known_at(c, trace, t))
    }

    ghost goes_on = { λ s. s.goes_on.1 };
}
