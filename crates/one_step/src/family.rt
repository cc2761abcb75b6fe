// The family of a kind decides which step there is. It is not offered to the viewer.
ghost use Rattle.std.specs.Prelude.{◌≡◌, T};
ghost use Rattle.rules.specs.Config.{Good};
ghost use Rattle.rules.specs.Possible.{possible};
ghost use Rattle.rules.specs.Step.{Steps};

use cycle::Outcome;
use expected::expected_wires;
use fatal::{going_on, stop_at_failure};
use rules::{Config, FATAL, Family, Frame, STOPPED};
use sequence::sequence_cycle;
use stability::stability_cycle;
use time::time_cycle;
use transition::transition_cycle;
use value::value_cycle;

// One step. That of a fatal checker is the step of the same checker made to go on, stopped at a failure.
pub fn step(c: Config, word: u64, frame: Frame) -> Outcome
    requires { (Good c) × (T (possible c word)) }
    ensures { Steps c word frame result.row result.word }
{
    if c.severity != FATAL {
        return going_step(c, word, frame);
    }
    if word == STOPPED {
        return Outcome {
            row: 0,
            word: STOPPED,
        };
    }
    stop_at_failure(going_step(going_on(c), word, frame))
}

// One step of a checker that goes on.
fn going_step(c: Config, word: u64, frame: Frame) -> Outcome
    requires { (Good c) × (c.severity ≡ 0) × (T (possible c word)) }
    ensures { Steps c word frame result.row result.word }
{
    match c.family() {
        Family::Sequence => sequence_cycle(c, word, frame),
        Family::Time => time_cycle(c, word, frame),
        Family::Transition => transition_cycle(c, word, frame),
        Family::Value => value_cycle(c, expected_wires(c), word, frame),
        Family::Stability => stability_cycle(c, word, frame),
    }
}
