// Each function answers bits that are 0 exactly where the word is as its contract says. None of them branches on the word: a loop that puts the bits of many
// words together takes several words at once.
ghost use Rattle.std.specs.Prelude.{◌≡◌, suc, ◌+◌, ◌*◌, ◌/◌, ◌%◌, ◌^◌, ◌<◌, ◌≤◌, ◌&&◌, ◌||◌, ◌==◌, count_ones, nat_le, nat_lt};
ghost use Rattle.rules.specs.Config.{Good, family};
ghost use Rattle.rules.specs.Config.Family.{sequence, transition, stability};
ghost use Rattle.rules.specs.Possible.{going_possible};

use bits::low_ones;
use rules::{Config, Family, REFERENCE_HELD, REFERENCE_UNIT};
use std::num::{wrapping_add_u64, wrapping_sub_u64};

// 0 exactly where some trace leaves the word of a checker that goes on.
pub fn misfit(c: Config, word: u64) -> u64
    requires { Good c }
    ensures { (result == 0) ≡ going_possible c word }
{
    match c.family() {
        Family::Sequence => attempts_misfit(c, word),
        Family::Time | Family::Value => above(word, c.n as u64, 32),
        Family::Transition => stored_misfit(c, word),
        Family::Stability => window_misfit(c, word),
    }
}

// 0 exactly where the word is at most the limit: what is missing to 2^bits - 1 is added to both.
fn above(word: u64, limit: u64, bits: u32) -> u64
    requires { (bits < 64) × (limit < 2 ^ bits) }
    ensures { (result == 0) ≡ nat_le word limit }
{
    (word | wrapping_add_u64(word, low_ones(bits) - limit)) >> bits
}

// 0 exactly where at most one bit of the word is set: its lowest is taken away.
fn second_one(word: u64) -> u64
    ensures { (result == 0) ≡ nat_le (count_ones word) 1 }
{
    word & wrapping_sub_u64(word, 1)
}

// Of a word without a bit above `tag`, 0 exactly where it has that bit or is below 2^bits.
fn untagged(word: u64, tag: u32, bits: u32) -> u64
    requires { (tag < 64) × (bits < 64) }
    ensures { word < 2 ^ suc tag → (result == 0) ≡ (nat_le (2 ^ tag) word || nat_lt word (2 ^ bits)) }
{
    (word >> bits) & wrapping_sub_u64(word >> tag, 1)
}

// Kinds 0 to 2: the word has no bit from n - 1 on, and of kind 2 at most one.
fn attempts_misfit(c: Config, word: u64) -> u64
    requires { (Good c) × (family c.kind ≡ sequence) }
    ensures { (result == 0) ≡ going_possible c word }
{
    let high = word >> (c.n - 1);
    // The kinds of a family are told apart by the number that the C interface has for them.
    if c.kind == 2 {
        return high | second_one(word);
    }
    high
}

// Kind 6: the word is 0, or 2^32 and a value of the width.
fn stored_misfit(c: Config, word: u64) -> u64
    requires { (Good c) × (family c.kind ≡ transition) }
    ensures { (result == 0) ≡ going_possible c word }
{
    above(word, 0x1_0000_0000 + low_ones(c.p.width()), 33) | untagged(word, 32, 0)
}

// Kind 8: the word is 0, the cycles left of a window without a reference, or those of one with a reference of the width.
fn window_misfit(c: Config, word: u64) -> u64
    requires { (Good c) × (family c.kind ≡ stability) }
    ensures { (result == 0) ≡ going_possible c word }
{
    let limit = REFERENCE_HELD + low_ones(c.p.width() + 16);
    above(word, limit, 49) | untagged(word, 48, 16) | cycles_misfit(c, word)
}

// Kind 8: where a reference is held, at least 1 cycle is left, and at most max - min; otherwise at most max.
fn cycles_misfit(c: Config, word: u64) -> u64
    requires { (c.n ≤ 65535) × (c.min ≤ c.n) }
    ensures { (result == 0) ≡ (nat_le (word / 2 ^ 48) (word % 2 ^ 16) && nat_le (word % 2 ^ 16 + word / 2 ^ 48 * c.min) c.n) }
{
    let left = word % REFERENCE_UNIT;
    let held = word / REFERENCE_HELD;
    let too_many = left + held * c.min as u64 + (65535 - c.n) as u64;
    (wrapping_sub_u64(left, held) | too_many) >> 16
}
