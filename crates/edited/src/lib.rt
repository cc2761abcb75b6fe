// Callers of full check and recheck. Their proofs use the contracts of the calls alone. Here: one that checks a trace, changes one cycle of it and rechecks.
#![tactic(auto)]

mod back;

ghost use Rattle.std.specs.Prelude.{◌<◌};
ghost use Rattle.rules.specs.Refusals.{refusal_of, cycle_of};
ghost use Rattle.trace.specs.Traces.{frames};
ghost use Rattle.recheck.specs.Answers.{end_of, changes_of};
ghost use Rattle.edited.specs.Edits.{Stored, Replaced};

pub use back::{BothResults, edit_and_take_back};
use recheck::{Rechecked, recheck};
use record::full_check;
use rules::{Config, FRAME_WORDS, Frame, Refusal};

// The frame of cycle t becomes the given one.
fn store_frame(trace: &mut [u32], t: usize, frame: Frame)
    requires { t < frames trace.old }
    ensures { Stored trace.old trace.new t frame }
{
    let first = FRAME_WORDS * t;
    trace[first..first + FRAME_WORDS].copy_from_slice(&frame.samples);
}

// Fills the record of the trace, replaces the frame of cycle t, and rechecks that cycle. Refused as the full check is, or with 6 where the trace has no such cycle:
// the trace is as it was.
pub fn replace_frame(
    c: Config,
    trace: &mut [u32],
    rows: &mut [u32],
    words: &mut [u64],
    t: usize,
    frame: Frame,
) -> Result<Rechecked, Refusal>
    ensures { Replaced c trace.old rows.old words.old t frame trace.new rows.new words.new (refusal_of result) (cycle_of result) (end_of result) (changes_of result) }
{
    full_check(c, trace, rows, words)?;
    if rows.len() <= t {
        return Err(Refusal::EditRange);
    }
    store_frame(trace, t, frame);
    recheck(c, trace, rows, words, t, t + 1)
}
