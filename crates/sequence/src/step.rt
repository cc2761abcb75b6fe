// One step of kinds 0 to 2, on all attempts at once: bit j of the open word is the attempt that started j cycles ago.
ghost use Rattle.std.specs.Prelude.{◌≡◌, false, not, ◌&&◌, ℕ, suc, ◌+◌, ◌-◌, ◌*◌, ◌^◌, ◌≤◌, ◌<◌, T, eqb};
ghost use Rattle.std.specs.Int.Bits.{bit_and};
ghost use Rattle.bits.specs.Bits.{to_bit, bit, number, without};
ghost use Rattle.bus.specs.Range.{value_of};
ghost use Rattle.rules.specs.Config.{Good, family, GoesOn};
ghost use Rattle.rules.specs.Config.Family.{sequence};
ghost use Rattle.rules.specs.Possible.{going_possible, possible};
ghost use Rattle.rules.specs.Rules.{row_of, check_marks};
ghost use Rattle.rules.specs.Sequence.{event_missed};
ghost use Rattle.rules.specs.Step.{StepsTo, Steps};
ghost use Rattle.trace.specs.Traces.{frames, frame_at};
ghost use Rattle.sequence.specs.Events.{Sees};

use bits::low_ones;
use cycle::{Outcome, check_row, out_of_reset, sample, to_bit};
use rules::{Config, FAILURE, Frame, OPENED, UNKNOWN};
use trace::frame_at;

// The events of a cycle: reset_n, and, in the order in which an attempt meets them, those that are 1 and those that are unknown. Above the n events are
// other wires, at which no step looks.
#[derive(Clone, Copy)]
pub struct Events {
    pub up: bool,
    pub seen: u64,
    pub unknown: u64,
}

// The events of a frame.
pub fn events_in(c: Config, frame: Frame) -> Events
    requires { (Good c) × (family c.kind ≡ sequence) }
    ensures { Sees c frame result }
{
    Events {
        up: out_of_reset(frame),
        seen: in_order(c, sample(frame, 1)),
        unknown: unknown_in_order(c, frame.samples[5]),
    }
}

// The events of cycle t of a trace. A loop over a trace reads the cycle and steps in two calls.
pub fn events_at(c: Config, trace: &[u32], t: usize) -> Events
    requires { (Good c) × (family c.kind ≡ sequence) × (t < frames trace.now) }
    ensures { Sees c (frame_at trace.now t) result }
{
    events_in(c, frame_at(trace, t))
}

// Where no event is unknown, as in most cycles, every attempt that ends fails: what unknown events add to a row stands behind one test of them.
fn sequence_step(c: Config, word: u64, events: Events) -> Outcome
    requires { (Good c) × (family c.kind ≡ sequence) × (T (going_possible c word)) }
    ensures { (frame : Frame) → Sees c frame events → StepsTo sequence c word frame result.row result.word }
{
    let n = c.n;
    let seen = events.seen;
    let unknown = events.unknown;
    let first = seen % 2 == 1;
    let ended = ended_of(word, seen);
    // Kind 0 looks at the oldest attempt alone: mark 4 says that it has met all events but the last.
    if c.kind == 0 {
        let next = advanced(word, first, seen, n);
        let marks = oldest_row(ended, unknown, n) + OPENED * highest_bit(next, n - 2);
        return Outcome {
            row: marks,
            word: next,
        };
    }
    let row = ended_row(ended, unknown);
    // Kind 2 starts only where nothing is being tested.
    if c.kind == 2 {
        let start = first & (word == 0);
        let marks = row + OPENED * to_bit(start);
        return Outcome {
            row: marks,
            word: advanced(word, start, seen, n),
        };
    }
    let marks = row + OPENED * to_bit(first);
    Outcome {
        row: marks,
        word: advanced(word, first, seen, n),
    }
}

// The step in any cycle: a reset ends everything. It is part of each loop over a trace: as a call it would take a copy of the configuration and of the events in each cycle.
#[inline(always)]
pub fn events_cycle(c: Config, word: u64, events: Events) -> Outcome
    requires { (Good c) × (GoesOn sequence c) × (T (possible c word)) }
    ensures { (frame : Frame) → Sees c frame events → Steps c word frame result.row result.word }
{
    if !events.up {
        return Outcome { row: 0, word: 0 }; // no attempt goes on
    }
    sequence_step(c, word, events)
}

// The same from the frame.
pub fn sequence_cycle(c: Config, word: u64, frame: Frame) -> Outcome
    requires { (Good c) × (GoesOn sequence c) × (T (possible c word)) }
    ensures { Steps c word frame result.row result.word }
{
    events_cycle(c, word, events_in(c, frame))
}

// The event bits in the order in which an attempt meets them: bit i is the event that an attempt needs i cycles after its start.
// That is the port's value with the declaration turned round.
fn in_order(c: Config, wires: u32) -> u64
    requires { (Good c) × (family c.kind ≡ sequence) }
    ensures { (i : ℕ) → i < c.n → bit result i ≡ bit (value_of c.p wires) (c.n - 1 - i) }
{
    c.p.turned().low_bits(wires) as u64
}

// The same of the unknown wires. In most cycles there is none, and nothing has to be put in order.
fn unknown_in_order(c: Config, wires: u32) -> u64
    requires { (Good c) × (family c.kind ≡ sequence) }
    ensures { (i : ℕ) → i < c.n → bit result i ≡ bit (value_of c.p wires) (c.n - 1 - i) }
{
    if wires == 0 {
        return 0;
    }
    in_order(c, wires)
}

// The events that are known to be 0, in the same order.
pub fn missed_in_order(c: Config, frame: Frame) -> u64
    requires { (Good c) × (family c.kind ≡ sequence) }
    ensures { result ≡ number c.n (λ (i : ℕ). event_missed c frame (c.n - 1 - i)) }
{
    let events = events_in(c, frame);
    let all = low_ones(c.n);
    all ^ (all & (events.seen | events.unknown))
}

// Every attempt one cycle older, with the new one, where it had its event. The oldest, which met its last event, drops out.
fn advanced(word: u64, start: bool, events: u64, n: u32) -> u64
    requires { (word < 2 ^ 32) × (1 ≤ n) × (n ≤ 32) }
    ensures { result ≡ number (n - 1) (λ (j : ℕ). bit (word * 2 + to_bit start) j && bit events j) }
{
    (word * 2 + to_bit(start) as u64) & events & low_ones(n - 1)
}

// Every attempt one cycle older, where it had not its event.
fn ended_of(word: u64, events: u64) -> u64
    requires { word < 2 ^ 32 }
    ensures { result ≡ without (word * 2) events }
{
    let older = word * 2;
    older ^ (older & events)
}

// The marks of attempts that end: those whose event is unknown are in doubt, and the others fail.
fn ended_row(ended: u64, unknown: u64) -> u32
    ensures { result ≡ row_of (check_marks (not (eqb (without ended unknown) 0)) false (not (eqb (bit_and ended unknown) 0))) }
{
    if unknown == 0 {
        return check_row(ended != 0, false, false);
    }
    let doubt = ended & unknown;
    check_row(ended ^ doubt != 0, false, doubt != 0)
}

// The marks of the oldest attempt alone, by its last event. They are numbers from the start: where a test makes them of a bit, the loop over a trace takes
// longer.
fn oldest_row(ended: u64, unknown: u64, n: u32) -> u32
    requires { (1 ≤ n) × (n ≤ 32) × (ended < 2 ^ n) }
    ensures { result ≡ row_of (check_marks (bit (without ended unknown) (n - 1)) false (bit (bit_and ended unknown) (n - 1))) }
{
    if unknown == 0 {
        return FAILURE * highest_bit(ended, n - 1);
    }
    let doubt = ended & unknown;
    FAILURE * highest_bit(ended ^ doubt, n - 1) + UNKNOWN * highest_bit(doubt, n - 1)
}

// Bit k of a word that has no higher one.
fn highest_bit(x: u64, k: u32) -> u32
    requires { (k < 64) × (x < 2 ^ suc k) }
    ensures { (result ≡ to_bit (bit x k)) × (result ≤ 1) }
{
    (x >> k) as u32
}
