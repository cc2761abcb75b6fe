// The step of kinds 0 to 2 in a loop.
ghost use Rattle.rules.specs.Config.{Good, GoesOn};
ghost use Rattle.rules.specs.Config.Family.{sequence};

use cycle::Outcome;
use rules::Config;
use runs::CycleStep;
use sequence::{events_at, events_cycle};

#[derive(Clone, Copy)]
pub struct SequenceStep {
    pub c: Config,
    ghost good: { Good c },
    ghost goes_on: { GoesOn sequence c },
}

impl CycleStep for SequenceStep {
    ghost config = { λ s. s.c };

    #[inline(always)]
    fn step(self, word: u64, trace: &[u32], t: usize) -> Outcome {
        let c = self.c;
        events_cycle(c, word, events_at(c, trace, t))
    }

    ghost goes_on = { λ s. s.goes_on.1 };
}
