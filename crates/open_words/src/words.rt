// Which open words are possible, and the refusal of a word to go on from.
ghost use Rattle.std.specs.Prelude.{◌≡◌, ◌&&◌, ◌-◌, ◌^◌, ◌<◌, leb, ltb};
ghost use Rattle.rules.specs.Config.{Good, family};
ghost use Rattle.rules.specs.Config.Family.{stability};
ghost use Rattle.rules.specs.Possible.{without_reference, with_a_reference, going_possible, can_fail, possible, word_refusal};
ghost use Rattle.rules.specs.Refusals.{refusal_of, cycle_of};

use bits::low_ones;
use config::config_refusal;
use rules::{Config, FATAL, Family, REFERENCE_HELD, REFERENCE_UNIT, Refusal, STOPPED};

// Whether some trace leaves the word: 2^63 that of a fatal checker, which has failed.
pub fn is_possible(c: Config, word: u64) -> bool
    requires { Good c }
    ensures { result ≡ possible c word }
{
    if is_unfinished(c, word) {
        return true;
    }
    (c.severity == FATAL) & can_fail(c) & (word == STOPPED)
}

// Whether a checker can fail. Kind 8 with min equal to max has no reference before the one cycle that is tested.
fn can_fail(c: Config) -> bool
    requires { Good c }
    ensures { result ≡ can_fail c }
{
    match c.family() {
        Family::Stability => c.min != c.n,
        _ => true,
    }
}

// Whether some trace leaves the word of a checker that goes on.
fn is_unfinished(c: Config, word: u64) -> bool
    requires { Good c }
    ensures { result ≡ going_possible c word }
{
    match c.family() {
        Family::Sequence => (word <= low_ones(c.n - 1))
            & ((c.kind != 2) | (u64::count_ones(word) <= 1)),
        Family::Time | Family::Value => word <= c.n as u64,
        Family::Transition => (word == 0) | is_stored(word, c.p.width()),
        Family::Stability => (word == 0) | has_no_reference(c, word) | has_reference(c, word),
    }
}

// Refuses a configuration, or an open word that no trace leaves: a step takes what is not refused.
pub fn refusal(c: Config, word: u64) -> Result<(), Refusal>
    ensures number { refusal_of result ≡ word_refusal c word }
    ensures no_cycle { cycle_of result ≡ 0 }
{
    config_refusal(c)?;
    if is_possible(c, word) {
        Ok(())
    } else {
        Err(Refusal::OpenWord(0))
    }
}

// Whether the word holds a stored value of that width: 2^32 and a value below 2^width.
fn is_stored(word: u64, width: u32) -> bool
    requires { width < 64 }
    ensures { result ≡ (leb (2 ^ 32) word && ltb (word - 2 ^ 32) (2 ^ width)) }
{
    if word < 0x1_0000_0000 {
        return false;
    }
    word - 0x1_0000_0000 <= low_ones(width)
}

// Whether the word is that of a window of kind 8 that has compared no cycle: from s+min on none was enabled, or the tracked value was unknown.
fn has_no_reference(c: Config, word: u64) -> bool
    ensures { result ≡ without_reference c word }
{
    word <= c.n as u64
}

// Whether the word is that of a window of kind 8 that holds a value of P: it was taken in s+min or later, so at most max - min cycles are left.
fn has_reference(c: Config, word: u64) -> bool
    requires { (Good c) × (family c.kind ≡ stability) }
    ensures { result ≡ with_a_reference c word }
{
    if word < REFERENCE_HELD {
        return false;
    }
    let p = c.p;
    let left = word % REFERENCE_UNIT;
    let reference = (word - REFERENCE_HELD) / REFERENCE_UNIT;
    (0 < left) & (left <= (c.n - c.min) as u64) & (reference <= low_ones(p.width()))
}
