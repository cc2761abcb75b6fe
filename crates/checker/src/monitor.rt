// One step by value.
ghost use Rattle.std.specs.Prelude.{◌≡◌};
ghost use Rattle.rules.specs.Refusals.{refusal_of, cycle_of};
ghost use Rattle.checker.specs.Calls.{row_answered, monitor_left, StepAnswer};

use one_step::step;
use open_words::refusal;
use rules::{Config, Frame, Refusal};

// A checker with its open word.
#[derive(Clone, Copy)]
pub struct Monitor {
    pub config: Config,
    pub word: u64,
}

// A step's answer: the cycle's row, and the monitor with the next word.
#[derive(Clone, Copy)]
pub struct Stepped {
    pub row: u32,
    pub monitor: Monitor,
}

impl Monitor {
    // One step on a frame; refusals 1, 2, 3 and 7. Refused: there is no row, and the monitor stays as it was.
    pub fn step(self, frame: Frame) -> Result<Stepped, Refusal>
        ensures answer { StepAnswer self.config self.word frame (refusal_of result) (row_answered result) (monitor_left self result) }
        ensures no_cycle { cycle_of result ≡ 0 }
    {
        refusal(self.config, self.word)?;
        let next = step(self.config, self.word, frame);
        Ok(Stepped {
            row: next.row,
            monitor: Monitor {
                word: next.word,
                ..self
            },
        })
    }
}
