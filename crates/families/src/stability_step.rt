// The step of kind 8 in a loop.
ghost use Rattle.rules.specs.Config.{Good, GoesOn};
ghost use Rattle.rules.specs.Config.Family.{stability};

use cycle::Outcome;
use rules::Config;
use runs::CycleStep;
use stability::{seen_at, tracked_at, tracked_cycle};

#[derive(Clone, Copy)]
pub struct StabilityStep {
    pub c: Config,
    ghost good: { Good c },
    ghost goes_on: { GoesOn stability c },
}

impl CycleStep for StabilityStep {
    ghost config = { λ s. s.c };

    #[inline(always)]
    fn step(self, word: u64, trace: &[u32], t: usize) -> Outcome {
        let c = self.c;
        let seen = seen_at(c, trace, t);
        tracked_cycle(c, word, seen, tracked_at(c, trace, t, word, seen))
    }

    ghost goes_on = { λ s. s.goes_on.1 };
}
