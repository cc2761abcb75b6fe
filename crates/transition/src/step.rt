// One step of kind 6.
ghost use Rattle.std.specs.Prelude.{◌≡◌, ◌<◌, true, T};
ghost use Rattle.rules.specs.Config.{Good, family, GoesOn};
ghost use Rattle.rules.specs.Config.Family.{transition};
ghost use Rattle.rules.specs.Possible.{going_possible, possible};
ghost use Rattle.rules.specs.Step.{StepsTo, Steps};
ghost use Rattle.trace.specs.Traces.{frames, frame_at};
ghost use Rattle.transition.specs.Ports.{Holds, Tells, Descends};

use cycle::{Outcome, check_row, out_of_reset};
use rules::{Config, Frame};
use trace::frame_at;

// What the ports hold in a cycle, as it was sampled: P the test, Q the start state, R the next state. Where a port is not known its value is not used.
#[derive(Clone, Copy)]
pub struct Values {
    pub up: bool,
    pub test: u32,
    pub start_state: u32,
    pub next_state: u32,
}

// Whether every bit of each is known.
#[derive(Clone, Copy)]
pub struct Known {
    pub test: bool,
    pub start_state: bool,
    pub next_state: bool,
}

// What the ports of a frame hold.
pub fn values_in(c: Config, frame: Frame) -> Values
    requires { Good c }
    ensures { Holds c frame result }
{
    Values {
        up: out_of_reset(frame),
        test: c.p.value(frame.samples[1]),
        start_state: c.q.value(frame.samples[2]),
        next_state: c.r.value(frame.samples[3]),
    }
}

// The same for ports that are all declared descending, as most are: then no direction is looked at.
fn descending_in(c: Config, frame: Frame) -> Values
    requires { (Good c) × (Descends c) }
    ensures { Holds c frame result }
{
    Values {
        up: out_of_reset(frame),
        test: c.p.descending_value(frame.samples[1]),
        start_state: c.q.descending_value(frame.samples[2]),
        next_state: c.r.descending_value(frame.samples[3]),
    }
}

// Which ports of a frame are known. In most cycles no wire is unknown, so that no range has to be looked at.
pub fn known_in(c: Config, frame: Frame) -> Known
    requires { Good c }
    ensures { Tells c frame result }
{
    let p_unknown = frame.samples[5];
    let q_unknown = frame.samples[6];
    let r_unknown = frame.samples[7];
    if p_unknown | q_unknown | r_unknown == 0 {
        return Known {
            test: true,
            start_state: true,
            next_state: true,
        };
    }
    Known {
        test: !c.p.has_one(p_unknown),
        start_state: !c.q.has_one(q_unknown),
        next_state: !c.r.has_one(r_unknown),
    }
}

// The same of cycle t of a trace. A loop over a trace reads the cycle and steps in three calls: together they are too large to be inlined.
pub fn values_at(c: Config, trace: &[u32], t: usize) -> Values
    requires { (Good c) × (t < frames trace.now) }
    ensures { Holds c (frame_at trace.now t) result }
{
    values_in(c, frame_at(trace, t))
}

pub fn descending_at(c: Config, trace: &[u32], t: usize) -> Values
    requires { (Good c) × (Descends c) × (t < frames trace.now) }
    ensures { Holds c (frame_at trace.now t) result }
{
    descending_in(c, frame_at(trace, t))
}

pub fn known_at(c: Config, trace: &[u32], t: usize) -> Known
    requires { (Good c) × (t < frames trace.now) }
    ensures { Tells c (frame_at trace.now t) result }
{
    known_in(c, frame_at(trace, t))
}

// The open word is 0, or 2^32 plus the next state that was stored.
fn transition_step(word: u64, values: Values, known: Known) -> Outcome
    ensures { (c : Config) (frame : Frame) → family c.kind ≡ transition → T (going_possible c word) → Holds c frame values → Tells c frame known → StepsTo transition c word frame result.row result.word }
{
    let test = values.test;
    let starts = known.test & known.start_state & (test == values.start_state);
    let next_state = values.next_state;
    let failure = (word != 0) & (known.test & (test as u64 + 0x1_0000_0000 != word));
    let doubt = ((word != 0) & !known.test) | (starts & !known.next_state);
    let row = check_row(failure, starts, doubt);
    if starts & known.next_state {
        Outcome {
            row,
            word: 0x1_0000_0000 + next_state as u64,
        }
    } else {
        Outcome { row, word: 0 }
    }
}

// The step in any cycle: a reset ends everything.
pub fn values_cycle(c: Config, word: u64, values: Values, known: Known) -> Outcome
    requires { (Good c) × (GoesOn transition c) × (T (possible c word)) }
    ensures { (frame : Frame) → Holds c frame values → Tells c frame known → Steps c word frame result.row result.word }
{
    if !values.up {
        return Outcome { row: 0, word: 0 }; // no value stays stored
    }
    // Where every port is known, as in most cycles, the step is compiled without the flags.
    if known.test & known.start_state & known.next_state {
        return transition_step(
            word,
            values,
            Known {
                test: true,
                start_state: true,
                next_state: true,
            },
        );
    }
    transition_step(word, values, known)
}

// The same from the frame.
pub fn transition_cycle(c: Config, word: u64, frame: Frame) -> Outcome
    requires { (Good c) × (GoesOn transition c) × (T (possible c word)) }
    ensures { Steps c word frame result.row result.word }
{
    values_cycle(c, word, values_in(c, frame), known_in(c, frame))
}

// Whether all three ports are declared descending.
pub fn all_descend(c: Config) -> bool
    ensures { result ≡ true → Descends c }
{
    c.p.descends() & (c.q.descends() & c.r.descends())
}
