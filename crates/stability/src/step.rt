// One step of kind 8.
ghost use Rattle.std.specs.Prelude.{true, cond, ◌≡◌, ◌+◌, ◌^◌, ◌<◌, ◌≤◌, T, eqb};
ghost use Rattle.rules.specs.Config.{Good, family, GoesOn};
ghost use Rattle.rules.specs.Config.Family.{stability};
ghost use Rattle.rules.specs.Possible.{going_possible, possible};
ghost use Rattle.rules.specs.Frame.{enabled};
ghost use Rattle.rules.specs.Step.{opens, StepsTo, Steps};
ghost use Rattle.rules.specs.Trigger.{with_reference};
ghost use Rattle.trace.specs.Traces.{frames, frame_at};
ghost use Rattle.stability.specs.Tracked.{Sees, is_open_at, Tracks};

use cycle::{Outcome, is_enabled, out_of_reset, sample, window_row};
use rules::{Config, Frame, REFERENCE_HELD, REFERENCE_UNIT};
use trace::frame_at;
use trigger::{is_tested, sees_trigger};

// What is seen of a cycle first: reset_n and, out of reset, enable, and whether there is a trigger.
#[derive(Clone, Copy)]
pub struct Seen {
    pub up: bool,
    pub enabled: bool,
    pub trigger: bool,
}

// The tracked value, and whether every bit of it is known: only then does a step use it.
#[derive(Clone, Copy)]
pub struct Tracked {
    pub value: u32,
    pub known: bool,
}

// What is seen of a frame.
pub fn seen_in(c: Config, frame: Frame) -> Seen
    requires { (Good c) × (family c.kind ≡ stability) }
    ensures { Sees c frame result }
{
    if !out_of_reset(frame) {
        return Seen {
            up: false,
            enabled: false,
            trigger: false,
        };
    }
    Seen {
        up: true,
        enabled: is_enabled(frame),
        trigger: sees_trigger(c, frame),
    }
}

// Whether a window is open in the cycle, from before it or by its trigger. Only then is the tracked value read.
fn is_open(word: u64, seen: Seen) -> bool
    ensures { result ≡ is_open_at word seen }
{
    seen.up & ((word != 0) | seen.trigger)
}

// The tracked value of a frame, where a window is open. In most cycles no wire is unknown, so that no range has to be looked at.
pub fn tracked_in(c: Config, frame: Frame, word: u64, seen: Seen) -> Tracked
    requires { Good c }
    ensures { is_open_at word seen ≡ true → Tracks c frame result }
{
    if !is_open(word, seen) {
        return Tracked {
            value: 0,
            known: true,
        };
    }
    let value = c.p.masked_value(frame.samples[1]);
    let unknown = frame.samples[5];
    if unknown == 0 {
        return Tracked { value, known: true };
    }
    Tracked {
        value,
        known: !c.p.has_one(unknown),
    }
}

// The same of cycle t of a trace. A loop over a trace reads the cycle and steps in three calls: together they are too large to be inlined.
pub fn seen_at(c: Config, trace: &[u32], t: usize) -> Seen
    requires { (Good c) × (family c.kind ≡ stability) × (t < frames trace.now) }
    ensures { Sees c (frame_at trace.now t) result }
{
    seen_in(c, frame_at(trace, t))
}

pub fn tracked_at(c: Config, trace: &[u32], t: usize, word: u64, seen: Seen) -> Tracked
    requires { (Good c) × (t < frames trace.now) }
    ensures { is_open_at word seen ≡ true → Tracks c (frame_at trace.now t) result }
{
    tracked_in(c, frame_at(trace, t), word, seen)
}

// The step of an open window. The open word is the number of cycles left to s+max, this one included, with the reference above it.
fn stability_step(c: Config, word: u64, enable: bool, t: Tracked) -> Outcome
    requires { (Good c) × (family c.kind ≡ stability) × (T (going_possible c word)) }
    ensures { (frame : Frame) → opens c word frame ≡ true → enable ≡ enabled frame → Tracks c frame t → StepsTo stability c word frame result.row result.word }
{
    let max = c.n as u64;
    if REFERENCE_HELD <= word {
        return compared_step(c, word, enable, t);
    }
    let opened = word == 0;
    let left = if opened { max } else { word - 1 };
    let known = t.known;
    let tested = is_tested(c, left, enable);
    Outcome {
        row: window_row(false, opened, left == 0, tested & !known),
        word: first_word(left, tested & known, t.value),
    }
}

// The word of a window that has no reference, with so many cycles left: a cycle that is compared gives it one, unless it is the last.
fn first_word(left: u64, compared: bool, tracked: u32) -> u64
    requires { left < 2 ^ 16 }
    ensures { result ≡ cond (eqb left 0) 0 (left + cond compared (with_reference tracked) 0) }
{
    if compared & (left != 0) {
        left + (REFERENCE_HELD + tracked as u64 * REFERENCE_UNIT)
    } else {
        left
    }
}

// The step of a window that has a reference, which is compared to its end.
fn compared_step(c: Config, word: u64, enable: bool, t: Tracked) -> Outcome
    requires { (Good c) × (family c.kind ≡ stability) × (T (going_possible c word)) × (2 ^ 48 ≤ word) }
    ensures { (frame : Frame) → enable ≡ enabled frame → Tracks c frame t → StepsTo stability c word frame result.row result.word }
{
    let known = t.known;
    // The word is so many times the unit, and the cycles left.
    let changed = t.value as u64 + REFERENCE_HELD / REFERENCE_UNIT != word / REFERENCE_UNIT;
    let last = word % REFERENCE_UNIT == 1;
    let row = window_row(enable & known & changed, false, last, enable & !known);
    if last {
        Outcome { row, word: 0 }
    } else {
        Outcome {
            row,
            word: word - 1,
        }
    }
}

// The step in any cycle: a reset ends everything, and nothing happens where no window is open.
pub fn tracked_cycle(c: Config, word: u64, seen: Seen, t: Tracked) -> Outcome
    requires { (Good c) × (GoesOn stability c) × (T (possible c word)) }
    ensures { (frame : Frame) → Sees c frame seen → (is_open_at word seen ≡ true → Tracks c frame t) → Steps c word frame result.row result.word }
{
    if !is_open(word, seen) {
        return Outcome { row: 0, word: 0 }; // in reset no window stays open, and no reference
    }
    let enable = seen.enabled;
    // Where the value is known, as in most cycles, the step is compiled without the flag.
    if t.known {
        return stability_step(c, word, enable, Tracked { known: true, ..t });
    }
    stability_step(c, word, enable, t)
}

// The same from the frame.
pub fn stability_cycle(c: Config, word: u64, frame: Frame) -> Outcome
    requires { (Good c) × (GoesOn stability c) × (T (possible c word)) }
    ensures { Steps c word frame result.row result.word }
{
    let seen = seen_in(c, frame);
    tracked_cycle(c, word, seen, tracked_in(c, frame, word, seen))
}
