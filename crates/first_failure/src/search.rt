// The first failing cycle of several checkers' rows, and the first checker that fails in it.
ghost use Rattle.std.specs.Prelude.{◌≡◌, ◌*◌, ◌≤◌, length, Ok};
ghost use Rattle.rules.specs.Refusals.{refusal_of};
ghost use Rattle.first_failure.specs.Search.{search_refusal, is_found, checker_of, cycle_of, SearchAnswer, Searched};

use fatal::fails;
use rules::Refusal;

// A checker and a cycle in which it fails.
#[derive(Clone, Copy, Debug, PartialEq, Eq)]
pub struct FirstFailure {
    pub checker: usize,
    pub cycle: usize,
}

// Over K lots of N rows, checker by checker: the smallest cycle with mark 1 or 2, then the smallest checker; `None` where no row has either. Refusals 9, 4
// and 5.
#[tactic(auto, using(crate::proofs::Refusals::fitting))]
pub fn first_failure(
    checkers: usize,
    cycles: usize,
    rows: &[u32],
) -> Result<Option<FirstFailure>, Refusal>
    ensures { SearchAnswer checkers cycles rows.now (refusal_of result) (is_found result) (checker_of result) (cycle_of result) }
{
    search_refusal(checkers, cycles, rows.len())?;
    Ok(search(checkers, cycles, rows))
}

// The refusal of the numbers and of the rows' length.
#[tactic(auto, unfolding(crate::specs::Search::search_refusal))]
fn search_refusal(checkers: usize, cycles: usize, rows: usize) -> Result<(), Refusal>
    ensures { refusal_of result ≡ search_refusal checkers cycles rows }
{
    if 64 < checkers {
        return Err(Refusal::Checkers);
    }
    if 65536 < cycles {
        return Err(Refusal::TraceLength);
    }
    if rows != checkers * cycles {
        return Err(Refusal::SliceLength);
    }
    Ok(())
}

// Cycle by cycle, and in a cycle checker by checker, up to the first failing row: the document asks for a search that is left by a label.
fn search(checkers: usize, cycles: usize, rows: &[u32]) -> Option<FirstFailure>
    requires { (checkers ≤ 64) × (cycles ≤ 65536) × (length rows.now ≡ checkers * cycles) }
    ensures { Searched checkers cycles rows.now 0 (is_found (Ok result)) (checker_of (Ok result)) (cycle_of (Ok result)) }
{
    let mut found = None;
    'search: for cycle in 0..cycles {
        for checker in 0..checkers {
            if fails(rows[checker * cycles + cycle]) {
                found = Some(FirstFailure { checker, cycle });
                break 'search;
            }
        }
    }
    found
}
