// One step of a checker that goes on, on a cycle of a trace.
ghost use Rattle.std.specs.Prelude.{◌≡◌, ◌<◌, T};
ghost use Rattle.rules.specs.declared.config.Config.{Config};
ghost use Rattle.rules.specs.Possible.{possible};
ghost use Rattle.rules.specs.Step.{Steps};
ghost use Rattle.trace.specs.Traces.{frames, frame_at};

use cycle::Outcome;

// A way of stepping a checker, with what it keeps from cycle to cycle of what depends on the configuration alone. An impl marks its `step` to be inlined: as a call it would
// copy the configuration and the frame in each cycle.
pub trait CycleStep: Copy {
    // the checker
    ghost config: { Self → Config };

    // The row of cycle t of a trace and the open word behind it.
    fn step(self, word: u64, trace: &[u32], t: usize) -> Outcome
        requires { (T (possible (config self) word)) × (t < frames trace.now) }
        ensures { Steps (config self) word (frame_at trace.now t) result.row result.word };

    // It goes on after a failure.
    ghost goes_on: { (s : Self) → (config s).severity ≡ 0 };
}
