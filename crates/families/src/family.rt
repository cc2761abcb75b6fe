// The family of a kind, and of kinds 3 to 5 the kind, decides which steps a run makes. It is looked at once for a stretch, and each run has a loop of its own for each of these
// steps, in which the compiler can keep what depends on the configuration alone.
ghost use Rattle.std.specs.Prelude.{◌≡◌};
ghost use Rattle.rules.specs.Config.{Good, GoesOn};
ghost use Rattle.rules.specs.Config.Family.{time};

use super::sequence_step::SequenceStep;
use super::stability_step::StabilityStep;
use super::time_step::{ErrorStep, IgnoringStep, RestartingStep};
use super::transition_step::{DescendingStep, TransitionStep};
use super::value_step::ValueStep;
use expected::expected_wires;
use rules::{Config, Family};
use runs::Run;
use trace::{Reached, Stretch};
use transition::all_descend;

// Runs a stretch of kinds 3 to 5, by the steps of the kind. It is no part of its caller, so that the other loops of a fatal checker, which are in one function (`runs::Run`), do not
// share their registers with these.
#[inline(never)]
fn run_time<R: Run>(
    c: Config,
    trace: &[u32],
    rows: &mut [u32],
    words: &mut [u64],
    s: Stretch,
) -> Reached
    requires { (Good c) × (GoesOn time c) × (R.asks c trace.now rows.old words.old s) }
    ensures { R.leaves c trace.now rows.old words.old s rows.new words.new result }
{
    match c.kind {
        3 => R::run(IgnoringStep { c }, trace, rows, words, s),
        4 => R::run(RestartingStep { c }, trace, rows, words, s),
        _ => R::run(ErrorStep { c }, trace, rows, words, s),
    }
}

// Runs a stretch of a checker that goes on, by the steps of its family.
pub fn run_family<R: Run>(
    c: Config,
    trace: &[u32],
    rows: &mut [u32],
    words: &mut [u64],
    s: Stretch,
) -> Reached
    requires { (Good c) × (c.severity ≡ 0) × (R.asks c trace.now rows.old words.old s) }
    ensures { R.leaves c trace.now rows.old words.old s rows.new words.new result }
{
    match c.family() {
        Family::Sequence => R::run(SequenceStep { c }, trace, rows, words, s),
        Family::Time => run_time::<R>(c, trace, rows, words, s),
        Family::Transition => {
            if all_descend(c) {
                R::run(DescendingStep { c }, trace, rows, words, s)
            } else {
                R::run(TransitionStep { c }, trace, rows, words, s)
            }
        }
        Family::Value => {
            let expected = expected_wires(c);
            R::run(ValueStep { c, expected }, trace, rows, words, s)
        }
        Family::Stability => R::run(StabilityStep { c }, trace, rows, words, s),
    }
}
