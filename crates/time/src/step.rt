// One step of kinds 3 to 5.
ghost use Rattle.std.specs.Prelude.{◌≡◌, T};
ghost use Rattle.rules.specs.Config.{Good, family, GoesOn};
ghost use Rattle.rules.specs.Config.Family.{time};
ghost use Rattle.rules.specs.Possible.{possible};
ghost use Rattle.rules.specs.Step.{StepsTo, Steps};

use cycle::{Marks, Outcome, out_of_reset, sample};
use rules::{Config, Frame, OPENED, RESTARTED};

// The open word is the number of pending cycles left, this one included.
fn time_step(c: Config, word: u64, frame: Frame) -> Outcome
    requires { (Good c) × (family c.kind ≡ time) }
    ensures { StepsTo time c word frame result.row result.word }
{
    let start = c.p.wire(sample(frame, 1));
    let window = c.n as u64;
    // Nothing is pending, so nothing is tested.
    if word == 0 {
        return if start {
            Outcome {
                row: OPENED,
                word: window,
            }
        } else {
            Outcome { row: 0, word: 0 }
        };
    }
    // The window of kind 4 begins again, as an opened one, and this cycle is not tested. Kinds of a family go by the C interface's number.
    if start & (c.kind == 4) {
        return Outcome {
            row: OPENED | RESTARTED,
            word: window,
        };
    }
    let test = c.q.wire(sample(frame, 2));
    let unknown = c.q.wire(frame.samples[6]);
    let marks = Marks {
        failure: !test & !unknown,
        illegal: start & (c.kind == 5),
        closed: word == 1,
        unknown,
        ..Marks::default()
    };
    Outcome {
        row: marks.row(),
        word: word - 1,
    }
}

// The step in any cycle: a reset ends everything.
pub fn time_cycle(c: Config, word: u64, frame: Frame) -> Outcome
    requires { (Good c) × (GoesOn time c) × (T (possible c word)) }
    ensures { Steps c word frame result.row result.word }
{
    if !out_of_reset(frame) {
        return Outcome { row: 0, word: 0 }; // no window stays open
    }
    time_step(c, word, frame)
}
