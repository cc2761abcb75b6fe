// One run of a stretch of a fatal checker. It is not offered to the viewer.
ghost use Rattle.std.specs.Prelude.{◌≡◌};
ghost use Rattle.trace.specs.Stretches.{Runnable, Ran};

use families::run_family;
use fatal::going_on;
use rules::{Config, STOPPED};
use runs::Watch;
use stopped_runs::stay;
use trace::{Reached, Stretch};

// Runs a stretch of a fatal checker into lent rows and words: up to its first failure, if there is one, by the loops of its family, and behind it by one for all.
pub fn run_fatal(
    c: Config,
    trace: &[u32],
    rows: &mut [u32],
    words: &mut [u64],
    s: Stretch,
) -> Reached
    requires { (Runnable c trace.now rows.old words.old s) × (c.severity ≡ 1) }
    ensures { Ran c trace.now rows.old words.old s rows.new words.new result }
{
    if s.word == STOPPED {
        return stay(rows, words, s);
    }
    let reached = run_family::<Watch>(going_on(c), trace, rows, words, s);
    if reached.word != STOPPED {
        return reached;
    }
    let rest = Stretch {
        at: reached.at,
        word: reached.word,
        kept: reached.kept,
        ..s
    };
    stay(rows, words, rest)
}
