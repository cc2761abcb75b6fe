// The steps of kinds 3 to 5 in a loop, one for each kind. Each writes its kind out, so that no loop looks at it: with one step for the three, a recheck took up to 1.4 times as long.
ghost use Rattle.std.specs.Prelude.{◌≡◌};
ghost use Rattle.rules.specs.Config.{Good, GoesOn};
ghost use Rattle.rules.specs.Config.Family.{time};

use cycle::Outcome;
use rules::Config;
use runs::CycleStep;
use time::time_cycle;
use trace::frame_at;

// Kind 3: a start in a window is passed over.
#[derive(Clone, Copy)]
pub struct IgnoringStep {
    pub c: Config,
    ghost good: { Good c },
    ghost goes_on: { GoesOn time c },
    ghost kind_is: { c.kind ≡ 3 },
}

impl CycleStep for IgnoringStep {
    ghost config = { λ s. s.c };

    #[inline(always)]
    fn step(self, word: u64, trace: &[u32], t: usize) -> Outcome {
        let c = Config { kind: 3, ..self.c };
        time_cycle(c, word, frame_at(trace, t))
    }

    ghost goes_on = { λ s. s.goes_on.1 };
}

// Kind 4: a start in a window begins it again.
#[derive(Clone, Copy)]
pub struct RestartingStep {
    pub c: Config,
    ghost good: { Good c },
    ghost goes_on: { GoesOn time c },
    ghost kind_is: { c.kind ≡ 4 },
}

impl CycleStep for RestartingStep {
    ghost config = { λ s. s.c };

    #[inline(always)]
    fn step(self, word: u64, trace: &[u32], t: usize) -> Outcome {
        let c = Config { kind: 4, ..self.c };
        time_cycle(c, word, frame_at(trace, t))
    }

    ghost goes_on = { λ s. s.goes_on.1 };
}

// Kind 5: a start in a window is illegal.
#[derive(Clone, Copy)]
pub struct ErrorStep {
    pub c: Config,
    ghost good: { Good c },
    ghost goes_on: { GoesOn time c },
    ghost kind_is: { c.kind ≡ 5 },
}

impl CycleStep for ErrorStep {
    ghost config = { λ s. s.c };

    #[inline(always)]
    fn step(self, word: u64, trace: &[u32], t: usize) -> Outcome {
        let c = Config { kind: 5, ..self.c };
        time_cycle(c, word, frame_at(trace, t))
    }

    ghost goes_on = { λ s. s.goes_on.1 };
}
