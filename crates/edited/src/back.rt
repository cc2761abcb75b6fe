// A caller that makes an edit and takes it back, with a recheck after each. Its proof uses the contracts of the calls alone.
ghost use Rattle.std.specs.Prelude.{◌+◌, ◌*◌, ◌≤◌, length};
ghost use Rattle.rules.specs.Frame.{frame_words};
ghost use Rattle.edited.specs.Back.{SwappedAndRechecked, BackAnswer};

use edit_samples::{edit_refusal, swap_words};
use recheck::{RecheckResult, recheck};
use rules::{Config, FRAME_WORDS};

// The answers of two rechecks: after an edit, and after it was taken back.
#[repr(C)]
#[derive(Clone, Copy)]
pub struct BothResults {
    pub edit: RecheckResult,
    pub back: RecheckResult,
}

// Puts the samples in cycles a to b-1 and rechecks, then puts the old ones back and rechecks again: what the edit would change, with nothing changed. From the
// trace's true record all that is lent is as it was; from another record the rows and words are what the two rechecks leave. Refusals 1 to 6 before anything is
// done, 5 also where the samples are not those of b-a cycles; 7 by a recheck. Where the edit is refused, both answers are the same, and all is as it was.
pub fn edit_and_take_back(
    c: Config,
    trace: &mut [u32],
    rows: &mut [u32],
    words: &mut [u64],
    a: usize,
    b: usize,
    samples: &mut [u32],
) -> BothResults
    ensures { BackAnswer c a b samples.old samples.new (record { trace = trace.old; rows = rows.old; words = words.old }) (record { trace = trace.new; rows = rows.new; words = words.new }) result.edit result.back }
{
    if let Err(refusal) = edit_refusal(
        c,
        trace.len(),
        rows.len(),
        words.len(),
        a,
        b,
        samples.len(),
    ) {
        let none = RecheckResult::from(Err(refusal));
        return BothResults {
            edit: none,
            back: none,
        };
    }
    let edit = swap_and_recheck(c, trace, rows, words, a, b, samples);
    let back = swap_and_recheck(c, trace, rows, words, a, b, samples);
    BothResults { edit, back }
}

// The samples change places with those of the trace from cycle a on, and cycles a to b-1 are rechecked.
fn swap_and_recheck(
    c: Config,
    trace: &mut [u32],
    rows: &mut [u32],
    words: &mut [u64],
    a: usize,
    b: usize,
    samples: &mut [u32],
) -> RecheckResult
    requires { frame_words * a + length samples.old ≤ length trace.old }
    ensures { SwappedAndRechecked c a b samples.old samples.new (record { trace = trace.old; rows = rows.old; words = words.old }) (record { trace = trace.new; rows = rows.new; words = words.new }) result }
{
    swap_words(trace, FRAME_WORDS * a, samples);
    RecheckResult::from(recheck(c, trace, rows, words, a, b))
}
