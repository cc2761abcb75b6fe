// One step of kind 7.
ghost use Rattle.std.specs.Prelude.{true, not, ◌&&◌, ◌≡◌, ◌-◌, T, eqb, leb};
ghost use Rattle.rules.specs.Config.{Good, family, GoesOn};
ghost use Rattle.rules.specs.Config.Family.{value};
ghost use Rattle.rules.specs.Frame.{up, enabled, P, known_p};
ghost use Rattle.rules.specs.Possible.{possible};
ghost use Rattle.rules.specs.Rules.{row_of, window_marks};
ghost use Rattle.rules.specs.Step.{StepsTo, Steps};
ghost use Rattle.expected.specs.Expects.{Expects};

use cycle::{Outcome, is_enabled, out_of_reset, sample, window_row};
use expected::Expected;
use rules::{Config, Frame};
use trigger::{is_tested, sees_trigger};

// The open word is the number of cycles left to s+max, this one included.
fn value_step(c: Config, e: Expected, word: u64, frame: Frame) -> Outcome
    requires { (Good c) × (family c.kind ≡ value) × (Expects c e) × (up frame ≡ true) }
    ensures { StepsTo value c word frame result.row result.word }
{
    if word != 0 {
        let left = word - 1;
        return Outcome {
            row: value_row(c, e, false, left, frame),
            word: left,
        };
    }
    if !sees_trigger(c, frame) {
        return Outcome { row: 0, word: 0 };
    }
    // The trigger's own cycle is in the window.
    let left = c.n as u64;
    Outcome {
        row: value_row(c, e, true, left, frame),
        word: left,
    }
}

// The row of a cycle in a window with so many cycles left after it.
fn value_row(c: Config, e: Expected, opened: bool, left: u64, frame: Frame) -> u32
    requires { (Good c) × (family c.kind ≡ value) × (Expects c e) × (up frame ≡ true) }
    ensures { result ≡ row_of (window_marks (enabled frame && leb left (c.n - c.min) && known_p c frame && not (eqb (P c frame) c.value)) opened (eqb left 0) (enabled frame && leb left (c.n - c.min) && not (known_p c frame))) }
{
    let tested = is_tested(c, left, is_enabled(frame));
    if frame.samples[5] & e.mask != 0 {
        return window_row(false, opened, left == 0, tested);
    }
    let wrong = sample(frame, 1) & e.mask != e.wires;
    window_row(tested & wrong, opened, left == 0, false)
}

// The step in any cycle: a reset ends everything.
pub fn value_cycle(c: Config, e: Expected, word: u64, frame: Frame) -> Outcome
    requires { (Good c) × (GoesOn value c) × (T (possible c word)) × (Expects c e) }
    ensures { Steps c word frame result.row result.word }
{
    if !out_of_reset(frame) {
        return Outcome { row: 0, word: 0 }; // no window stays open
    }
    value_step(c, e, word, frame)
}
