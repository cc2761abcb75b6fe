// What a run of a stretch asks for, and what it leaves.
ghost use Rattle.std.specs.Prelude.{ℕ, List};
ghost use Rattle.rules.specs.declared.config.Config.{Config};
ghost use Rattle.trace.specs.declared.stretch.Reached.{Reached};
ghost use Rattle.trace.specs.declared.stretch.Stretch.{Stretch};

use super::step::CycleStep;
use trace::{Reached, Stretch};

// A way of running a stretch, by any way of stepping a checker. `Fill` and `Seek` mark theirs to be no part of the caller, so that the loop of each step has the registers of a function of its own:
// with the loops of all families in one function, that of kind 4 took up to 1.4 times as long. Those of `Watch` stay together, since apart they took up to 1.3 times as long (docs/PERFORMANCE.md). The trace, the rows, the words and the stretch are lent one by one: a struct of them would have to be
// made again for each call that lends the rows and words on.
pub trait Run {
    // of the checker, the trace, the rows and words as they are, and the stretch
    ghost asks: { Config → List ℕ → List ℕ → List ℕ → Stretch → Type 0 };

    // and besides of the rows and words that it leaves, and of where it has come to
    ghost leaves: { Config → List ℕ → List ℕ → List ℕ → Stretch → List ℕ → List ℕ → Reached → Type 0 };

    fn run<S: CycleStep>(
        stepper: S,
        trace: &[u32],
        rows: &mut [u32],
        words: &mut [u64],
        s: Stretch,
    ) -> Reached
        requires { asks (S.config stepper) trace.now rows.old words.old s }
        ensures { leaves (S.config stepper) trace.now rows.old words.old s rows.new words.new result };
}
