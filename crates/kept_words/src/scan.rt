// The words of a record, a block at a time: a block that has only words of a checker that goes on, or only 2^63, is passed without a branch on any word but its first.
ghost use Rattle.std.specs.Prelude.{◌≡◌, ℕ, ◌+◌, ◌<◌, ◌≤◌, length, ◌==◌, nat_eq, slice_index};
ghost use Rattle.bits.specs.Bits.{every};
ghost use Rattle.rules.specs.Config.{Good};
ghost use Rattle.rules.specs.Rules.{stopped_word};
ghost use Rattle.rules.specs.Possible.{going_possible};
ghost use Rattle.kept_words.specs.Spoiled.{FirstImpossible};

use misfits::misfit;
use open_words::is_possible;
use rules::{Config, STOPPED};
use std::num::wrapping_sub_u64;

// The most words of a block: few enough that a block which is looked at again is still near.
const BLOCK: usize = 1024;

// The lowest cycle whose word is impossible for the configuration, or the number of words where there is none.
pub fn first_impossible(c: Config, words: &[u64]) -> usize
    requires { Good c }
    ensures { FirstImpossible c words.now 0 (length words.now) result }
{
    let n = words.len();
    let mut t: usize = 0;
    while t < n {
        let count = (n - t).min(BLOCK);
        let reached = first_in_block(c, words, t, count);
        if reached < t + count {
            return reached;
        }
        t += count;
    }
    n
}

// The same of so many words from `from` on. The first of them tells which of the two tests can pass them all.
fn first_in_block(c: Config, words: &[u64], from: usize, count: usize) -> usize
    requires { (Good c) × (0 < count) × (from + count ≤ length words.now) }
    ensures { FirstImpossible c words.now from (from + count) result }
{
    let block = &words[from..from + count];
    if words[from] == STOPPED {
        if is_possible(c, STOPPED) & all_stopped(block) {
            return from + count;
        }
    } else {
        if misfits_in(c, block) == 0 {
            return from + count;
        }
    }
    first_by_one(c, words, from, from + count)
}

// 0 exactly where each of the words is possible for a checker that goes on. No turn leaves the loop, so that several words are taken at once, and the kind is
// the same in each turn, so that the compiler makes a loop for each family.
fn misfits_in(c: Config, block: &[u64]) -> u64
    requires { Good c }
    ensures { (result == 0) ≡ every (length block.now) (λ (i : ℕ). going_possible c (slice_index block.now i)) }
{
    let mut bits: u64 = 0;
    for word in block {
        bits |= misfit(c, *word);
    }
    bits
}

// Whether each of the words is 2^63.
fn all_stopped(block: &[u64]) -> bool
    ensures { result ≡ every (length block.now) (λ (i : ℕ). nat_eq (slice_index block.now i) stopped_word) }
{
    let mut bits: u64 = 0;
    // No `all`, which would leave at the first other word: so the compiler takes several words at once.
    for word in block {
        bits |= wrapping_sub_u64(*word, STOPPED);
    }
    bits == 0
}

// The lowest cycle of `from` to `to` - 1 whose word is impossible, or `to`.
fn first_by_one(c: Config, words: &[u64], from: usize, to: usize) -> usize
    requires { (Good c) × (from ≤ to) × (to ≤ length words.now) }
    ensures { FirstImpossible c words.now from to result }
{
    for t in from..to {
        if !is_possible(c, words[t]) {
            return t;
        }
    }
    to
}
