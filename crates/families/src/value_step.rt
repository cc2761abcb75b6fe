// The step of kind 7 in a loop.
ghost use Rattle.rules.specs.Config.{Good, GoesOn};
ghost use Rattle.rules.specs.Config.Family.{value};
ghost use Rattle.expected.specs.Expects.{Expects};

use cycle::Outcome;
use expected::Expected;
use rules::Config;
use runs::CycleStep;
use trace::frame_at;
use value::value_cycle;

// What is looked for at P is the same in all cycles.
#[derive(Clone, Copy)]
pub struct ValueStep {
    pub c: Config,
    pub expected: Expected,
    ghost good: { Good c },
    ghost goes_on: { GoesOn value c },
    ghost expects: { Expects c expected },
}

impl CycleStep for ValueStep {
    ghost config = { λ s. s.c };

    #[inline(always)]
    fn step(self, word: u64, trace: &[u32], t: usize) -> Outcome {
        value_cycle(self.c, self.expected, word, frame_at(trace, t))
    }

    ghost goes_on = { λ s. s.goes_on.1 };
}
