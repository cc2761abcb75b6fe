// The changes, word after word: of the reader's state only what they change is at hand.
ghost use Rattle.std.specs.Prelude.{true, false, List, ◌≡◌, ℕ, ◌≤◌, ◌<◌, length, get_or};
ghost use Rattle.dump_reader.specs.Machine.{begun};
ghost use Rattle.dump_reader.specs.Runs.{Goes, Due, Scalar, Vectored, past_blank, behind_word, class_number, begun_as};

use crate::run::{gather_run, vector_run};
use crate::state::is_blank;
use dump_change::{Wave, change_word, value_of};
use dump_find::find;
use dump_values::change_bits;
use dump_words::{Keyword, Number, Text, add_text, text_is};

#[derive(Clone, Copy)]
pub struct Changes {
    pub at: usize,
    // As a reader has them.
    pub line: u64,
    pub started: u64,
    pub shown: u64,
    // 0 where no word is open, and 1 more than the digits of a vector that is: the number of which `open_word` and `Due` of specs/Runs.antt speak, so no Option.
    pub held: u64,
    pub wave: Wave,
}

// White space is passed.
fn past_blank(c: Changes, at: usize, b: u8) -> Changes
    ensures { result ≡ past_blank c at b }
{
    if b == 10 {
        // No `saturating_add`, as in `new_line`.
        if c.line < 18446744073709551615 {
            return Changes {
                at,
                line: c.line + 1,
                started: 0,
                ..c
            };
        }
        return Changes {
            at,
            started: 0,
            ..c
        };
    }
    Changes {
        at,
        started: 1,
        ..c
    }
}

// Behind a word, with what it says; no word is open.
fn behind_word(c: Changes, wave: Wave) -> Changes
    ensures { result ≡ behind_word c wave }
{
    Changes {
        shown: c.line,
        held: 0,
        wave,
        ..c
    }
}

// What a word is by its first byte.
#[derive(Clone, Copy)]
pub enum Class {
    Stamp,
    Vector,
    // Its text is kept.
    Other,
}

// The class of the word that begins with b.
fn class_of(place: u64, b: u8) -> Class
    requires { 20 ≤ place }
    ensures { begun place b ≡ begun_as (class_number result) b }
{
    if place != 20 {
        return Class::Other;
    }
    if b == 35 {
        return Class::Stamp;
    }
    if b == 98 {
        return Class::Vector;
    }
    if b == 66 {
        return Class::Vector;
    }
    Class::Other
}

// A scalar change that is good is made; of any other word nothing is.
fn scalar_good(t: Text, n: usize, store: &mut [u64]) -> bool
    requires { (length store.old ≡ 8468) × (n ≤ 1024) }
    ensures { (result ≡ true → Scalar t n store.old store.new) × (result ≡ false → store.new ≡ store.old) }
{
    let v = value_of((t.low % 256) as u8);
    if v >= 3 {
        return false;
    }
    if t.length < 2 {
        return false;
    }
    if t.length > 9 {
        return false;
    }
    if t.plain != 1 {
        return false;
    }
    let x = (t.low / 256) | (t.high << 56);
    let i = find(store, n, x);
    if i >= n {
        return false;
    }
    if store[1024 + i] != 1 {
        return false;
    }
    if store[2048 + i] == 2 {
        return false;
    }
    let digits = [v];
    change_bits(store, &digits, 1, x, i);
    true
}

// The vector of `count` digits is changed where its code t is good; else nothing is done.
fn vector_good(t: Text, count: usize, n: usize, store: &mut [u64], digits: &[u8]) -> bool
    requires { (length store.old ≡ 8468) × (n ≤ 1024) × (length digits.now ≡ 4096) × (count ≤ 4096) }
    ensures { (result ≡ true → Vectored t count n store.old digits.now store.new) × (result ≡ false → store.new ≡ store.old) }
{
    if count == 0 {
        return false;
    }
    if t.length > 8 {
        return false;
    }
    if t.plain != 1 {
        return false;
    }
    if text_is(t, Keyword::END) {
        return false;
    }
    let i = find(store, n, t.low);
    if i >= n {
        return false;
    }
    if store[2048 + i] == 2 {
        return false;
    }
    if count as u64 > store[1024 + i] {
        return false;
    }
    change_bits(store, digits, count, t.low, i);
    true
}

// A vector and its code, where both are good and end in the piece, or the vector alone where more white space is behind it; else it stays open: its
// digits are not read again.
fn vector_one(c: Changes, n: usize, bytes: &[u8], store: &mut [u64], digits: &mut [u8]) -> Changes
    requires { (length store.old ≡ 8468) × (n ≤ 1024) × (length digits.old ≡ 4096) × Due c bytes.now × (begun c.wave.place (get_or bytes.now c.at 0) ≡ begun_as 4 (get_or bytes.now c.at 0)) × (c.wave.place ≡ 20) }
    ensures { (c.at ≤ result.at) × (result.at ≤ length bytes.now) × ((f : List ℕ) → Goes n bytes.now c store.old digits.old f result store.new digits.new f) }
{
    let run = vector_run(bytes, c.at + 1, digits);
    let to = run.at;
    let open = Changes {
        at: to,
        held: run.count as u64 + 1,
        ..c
    };
    if c.wave.count != 0 {
        return open;
    }
    if to >= bytes.len() {
        return open;
    }
    let from = to + 1;
    if from >= bytes.len() {
        return open;
    }
    let e = bytes[to];
    let b = bytes[from];
    if is_blank(b) {
        if run.count == 0 {
            return open;
        }
        if is_blank(e) {
            let wave = Wave {
                place: 21,
                count: run.count as u64,
                ..c.wave
            };
            return past_blank(behind_word(c, wave), from, e);
        }
        return open;
    }
    if is_blank(e) {
        let first = add_text(Text::EMPTY, b);
        let code = gather_run(first, bytes, from + 1);
        let end = code.at;
        if end >= bytes.len() {
            return open;
        }
        let z = bytes[end];
        if is_blank(z) {
            if vector_good(code.kept, run.count, n, store, digits) {
                let next = past_blank(behind_word(c, c.wave), from, e);
                return past_blank(behind_word(next, c.wave), end + 1, z);
            }
            return open;
        }
        return open;
    }
    open
}

// A scalar that is good and ends in the piece.
fn scalar_one(c: Changes, n: usize, bytes: &[u8], store: &mut [u64]) -> Changes
    requires { (length store.old ≡ 8468) × (n ≤ 1024) × Due c bytes.now × (begun c.wave.place (get_or bytes.now c.at 0) ≡ begun_as 1 (get_or bytes.now c.at 0)) × (c.wave.place ≡ 20) }
    ensures { (c.at ≤ result.at) × (result.at ≤ length bytes.now) × ((d f : List ℕ) → Goes n bytes.now c store.old d f result store.new d f) }
{
    let first = add_text(Text::EMPTY, bytes[c.at]);
    let run = gather_run(first, bytes, c.at + 1);
    let to = run.at;
    if to >= bytes.len() {
        return c;
    }
    let e = bytes[to];
    if is_blank(e) {
        if scalar_good(run.kept, n, store) {
            return past_blank(behind_word(c, c.wave), to + 1, e);
        }
        return c;
    }
    c
}

// White space, a scalar that is good, or a vector, where a change is due.
fn good_one(c: Changes, n: usize, bytes: &[u8], store: &mut [u64], digits: &mut [u8]) -> Changes
    requires { (length store.old ≡ 8468) × (n ≤ 1024) × (length digits.old ≡ 4096) × (c.at < length bytes.now) }
    ensures { (c.at ≤ result.at) × (result.at ≤ length bytes.now) × ((f : List ℕ) → Goes n bytes.now c store.old digits.old f result store.new digits.new f) }
{
    let b = bytes[c.at];
    if c.wave.place != 20 {
        return c;
    }
    if c.held != 0 {
        return c;
    }
    if is_blank(b) {
        return past_blank(c, c.at + 1, b);
    }
    match class_of(20, b) {
        Class::Stamp => c,
        Class::Vector => vector_one(c, n, bytes, store, digits),
        Class::Other => scalar_one(c, n, bytes, store),
    }
}

// Changes one behind another.
fn past_good(
    start: Changes,
    n: usize,
    bytes: &[u8],
    store: &mut [u64],
    digits: &mut [u8],
) -> Changes
    requires { (length store.old ≡ 8468) × (n ≤ 1024) × (length digits.old ≡ 4096) × (start.at ≤ length bytes.now) }
    ensures { (start.at ≤ result.at) × (result.at ≤ length bytes.now) × ((f : List ℕ) → Goes n bytes.now start store.old digits.old f result store.new digits.new f) }
{
    let mut c = start;
    // `good_one` answers how far it went, so the loop does not take the places one by one.
    while c.at < bytes.len() {
        let next = good_one(c, n, bytes, store, digits);
        if next.at == c.at {
            return next;
        }
        c = next;
    }
    c
}

fn past_text(
    c: Changes,
    n: usize,
    bytes: &[u8],
    store: &mut [u64],
    digits: &[u8],
    frames: &mut [u32],
) -> Changes
    requires { (length store.old ≡ 8468) × (n ≤ 1024) × (length digits.now ≡ 4096) × (length frames.old ≤ 524288) × Due c bytes.now × (begun c.wave.place (get_or bytes.now c.at 0) ≡ begun_as 1 (get_or bytes.now c.at 0)) }
    ensures { (c.at ≤ result.at) × (result.at ≤ length bytes.now) × Goes n bytes.now c store.old digits.now frames.old result store.new digits.now frames.new }
{
    let first = add_text(Text::EMPTY, bytes[c.at]);
    let run = gather_run(first, bytes, c.at + 1);
    let to = run.at;
    if to >= bytes.len() {
        return c;
    }
    let e = bytes[to];
    if is_blank(e) {
        let number = Number::NONE;
        let wave = change_word(c.wave, 1, run.kept, number, 0, 0, n, store, digits, frames);
        return past_blank(behind_word(c, wave), to + 1, e);
    }
    c
}

fn past_number(
    c: Changes,
    n: usize,
    bytes: &[u8],
    store: &mut [u64],
    digits: &[u8],
    frames: &mut [u32],
) -> Changes
    requires { (length store.old ≡ 8468) × (n ≤ 1024) × (length digits.now ≡ 4096) × (length frames.old ≤ 524288) × Due c bytes.now × (begun c.wave.place (get_or bytes.now c.at 0) ≡ begun_as 2 (get_or bytes.now c.at 0)) }
    ensures { (c.at ≤ result.at) × (result.at ≤ length bytes.now) × Goes n bytes.now c store.old digits.now frames.old result store.new digits.now frames.new }
{
    let run = gather_run(Number::NONE, bytes, c.at + 1);
    let to = run.at;
    if to >= bytes.len() {
        return c;
    }
    let e = bytes[to];
    if is_blank(e) {
        let text = Text::EMPTY;
        let wave = change_word(c.wave, 2, text, run.kept, 0, 0, n, store, digits, frames);
        return past_blank(behind_word(c, wave), to + 1, e);
    }
    c
}

// A vector may stay open: its digits are not read again.
fn past_vector(
    c: Changes,
    n: usize,
    bytes: &[u8],
    store: &mut [u64],
    digits: &mut [u8],
    frames: &mut [u32],
) -> Changes
    requires { (length store.old ≡ 8468) × (n ≤ 1024) × (length digits.old ≡ 4096) × (length frames.old ≤ 524288) × Due c bytes.now × (begun c.wave.place (get_or bytes.now c.at 0) ≡ begun_as 4 (get_or bytes.now c.at 0)) }
    ensures { (c.at ≤ result.at) × (result.at ≤ length bytes.now) × Goes n bytes.now c store.old digits.old frames.old result store.new digits.new frames.new }
{
    let run = vector_run(bytes, c.at + 1, digits);
    let to = run.at;
    let count = run.count as u64;
    let open = Changes {
        at: to,
        held: count + 1,
        ..c
    };
    if to >= bytes.len() {
        return open;
    }
    let e = bytes[to];
    if is_blank(e) {
        let text = Text::EMPTY;
        let number = Number::NONE;
        let wave = change_word(c.wave, 4, text, number, count, 0, n, store, digits, frames);
        return past_blank(behind_word(c, wave), to + 1, e);
    }
    open
}

// White space, or one word that ends in the piece.
fn past_one(
    c: Changes,
    n: usize,
    bytes: &[u8],
    store: &mut [u64],
    digits: &mut [u8],
    frames: &mut [u32],
) -> Changes
    requires { (length store.old ≡ 8468) × (n ≤ 1024) × (length digits.old ≡ 4096) × (length frames.old ≤ 524288) × (c.at < length bytes.now) }
    ensures { (c.at ≤ result.at) × (result.at ≤ length bytes.now) × Goes n bytes.now c store.old digits.old frames.old result store.new digits.new frames.new }
{
    let b = bytes[c.at];
    if c.wave.place < 20 {
        return c;
    }
    if c.wave.place >= 100 {
        return c;
    }
    if c.held != 0 {
        return c;
    }
    if is_blank(b) {
        return past_blank(c, c.at + 1, b);
    }
    match class_of(c.wave.place, b) {
        Class::Stamp => past_number(c, n, bytes, store, digits, frames),
        Class::Vector => past_vector(c, n, bytes, store, digits, frames),
        Class::Other => past_text(c, n, bytes, store, digits, frames),
    }
}

// All that can be passed.
pub fn past_all(
    start: Changes,
    n: usize,
    bytes: &[u8],
    store: &mut [u64],
    digits: &mut [u8],
    frames: &mut [u32],
) -> Changes
    requires { (length store.old ≡ 8468) × (n ≤ 1024) × (length digits.old ≡ 4096) × (length frames.old ≤ 524288) × (start.at ≤ length bytes.now) }
    ensures { (start.at ≤ result.at) × (result.at ≤ length bytes.now) × Goes n bytes.now start store.old digits.old frames.old result store.new digits.new frames.new }
{
    let mut c = start;
    // `past_good` and `past_one` answer how far they went, so the loop does not take the places one by one.
    while c.at < bytes.len() {
        let d = past_good(c, n, bytes, store, digits);
        if d.at >= bytes.len() {
            return d;
        }
        let next = past_one(d, n, bytes, store, digits, frames);
        if next.at == c.at {
            return next;
        }
        c = next;
    }
    c
}
