// The severity decides which run there is, and whether the stretch stops. It is not offered to the viewer.
ghost use Rattle.trace.specs.Stretches.{Runnable, Ran};

use families::run_family;
use fatal_engine::run_fatal;
use rules::{Config, FATAL};
use runs::{Fill, Seek};
use trace::{Reached, Stretch};

// Runs a stretch of a trace into lent rows and words. The severity and the kind are looked at once for the stretch, and each family has loops of its own, in which the
// compiler can keep what depends on the configuration alone. The loop of a stretch that does not stop has no test for it, and that of a checker that goes on none for a
// failure. Each of these loops is a function of its own (`runs::Run`).
pub fn run(c: Config, trace: &[u32], rows: &mut [u32], words: &mut [u64], s: Stretch) -> Reached
    requires { Runnable c trace.now rows.old words.old s }
    ensures { Ran c trace.now rows.old words.old s rows.new words.new result }
{
    let fatal = c.severity == FATAL;
    let stops = s.stops;
    if stops {
        if fatal {
            return run_fatal(c, trace, rows, words, s);
        }
        run_family::<Seek>(c, trace, rows, words, s)
    } else {
        if fatal {
            return run_fatal(c, trace, rows, words, s);
        }
        run_family::<Fill>(c, trace, rows, words, s)
    }
}
