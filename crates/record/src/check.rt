// The full check.
ghost use Rattle.rules.specs.Refusals.{refusal_of};
ghost use Rattle.record.specs.Records.{CheckAnswer};

use engine::run;
use lengths::lengths_refusal;
use rules::{Config, Refusal};
use trace::Stretch;

// Fills the rows and the open words of every cycle of the trace, which is one stretch. Refused, with 1 to 5: both are as they were.
pub fn full_check(
    c: Config,
    trace: &[u32],
    rows: &mut [u32],
    words: &mut [u64],
) -> Result<(), Refusal>
    ensures { CheckAnswer c trace.now rows.old words.old rows.new words.new (refusal_of result) }
{
    lengths_refusal(c, trace.len(), rows.len(), words.len())?;
    let n = rows.len();
    let all = Stretch {
        from: 0,
        at: 0,
        to: n,
        stops: false,
        word: 0,
        kept: 0,
    };
    run(c, trace, rows, words, all);
    Ok(())
}
