// Changes of one wire: a scalar, and the code of a vector or of a real.
ghost use Rattle.std.specs.Prelude.{◌≡◌, ◌≤◌, ◌<◌, length};
ghost use Rattle.dump_change.specs.Change.{tail_code, scalar_test, on_scalar, scalar_store, vector_test, on_vector_code, vector_store, real_test, on_real_code};

use crate::wave::{Wave, unknown_code, wave_at};
use dump_find::find;
use dump_values::change_bits;
use dump_words::{Keyword, Text, text_is};

// The code behind the first byte of a word of at most nine bytes.
fn tail_code(t: Text) -> u64
    ensures { result ≡ tail_code t }
{
    (t.low / 256) | (t.high << 56)
}

// A scalar change of the code x, which was found at place i among n, or was not found.
fn scalar_test(w: Wave, plain: u64, x: u64, i: usize, n: usize, store: &[u64]) -> Wave
    requires { (length store.now ≡ 8468) × (n ≤ 1024) }
    ensures { result ≡ scalar_test w plain x i n store.now }
{
    if plain != 1 {
        return unknown_code(w, x);
    }
    if i >= n {
        return unknown_code(w, x);
    }
    if store[1024 + i] != 1 {
        return wave_at(w, 110);
    }
    if store[2048 + i] == 2 {
        return wave_at(w, 110);
    }
    wave_at(w, 20)
}

// A scalar change to v, with the code behind it in the same word.
pub fn on_scalar(w: Wave, v: u8, t: Text, n: usize, store: &mut [u64]) -> Wave
    requires { (length store.old ≡ 8468) × (n ≤ 1024) }
    ensures { (result ≡ on_scalar w t n store.old) × (store.new ≡ scalar_store w v t n store.old) }
{
    if t.length < 2 {
        return wave_at(w, 110);
    }
    if t.length > 9 {
        return wave_at(w, 112);
    }
    let x = tail_code(t);
    let i = find(store, n, x);
    let r = scalar_test(w, t.plain, x, i, n, store);
    if r.place != 20 {
        return r;
    }
    if i >= n {
        return r;
    }
    let digits = [v];
    change_bits(store, &digits, 1, x, i);
    r
}

// A vector of w.count digits for the code x, which was found at place i among n, or was not found.
fn vector_test(w: Wave, plain: u64, x: u64, i: usize, n: usize, store: &[u64]) -> Wave
    requires { (length store.now ≡ 8468) × (n ≤ 1024) }
    ensures { result ≡ vector_test w plain x i n store.now }
{
    if plain != 1 {
        return unknown_code(w, x);
    }
    if i >= n {
        return unknown_code(w, x);
    }
    if store[2048 + i] == 2 {
        return wave_at(w, 110);
    }
    if w.count > store[1024 + i] {
        return wave_at(w, 110);
    }
    Wave {
        place: 20,
        count: 0,
        ..w
    }
}

// The code of a vector, whose digits stand in front of `digits`.
pub fn on_vector_code(w: Wave, t: Text, n: usize, store: &mut [u64], digits: &[u8]) -> Wave
    requires { (length store.old ≡ 8468) × (n ≤ 1024) × (length digits.now ≡ 4096) }
    ensures { (result ≡ on_vector_code w t n store.old) × (store.new ≡ vector_store w t n store.old digits.now) }
{
    if t.length > 8 {
        return wave_at(w, 112);
    }
    if text_is(t, Keyword::END) {
        return wave_at(w, 110);
    }
    let i = find(store, n, t.low);
    let r = vector_test(w, t.plain, t.low, i, n, store);
    if r.place != 20 {
        return r;
    }
    if i >= n {
        return r;
    }
    if w.count == 0 {
        return r;
    }
    if w.count > 4096 {
        return r;
    }
    change_bits(store, digits, w.count as usize, t.low, i);
    r
}

// A real's change of the code x, which was found at place i among n, or was not found.
fn real_test(w: Wave, plain: u64, x: u64, i: usize, n: usize, store: &[u64]) -> Wave
    requires { (length store.now ≡ 8468) × (n ≤ 1024) }
    ensures { result ≡ real_test w plain x i n store.now }
{
    if plain != 1 {
        return unknown_code(w, x);
    }
    if i >= n {
        return unknown_code(w, x);
    }
    if store[2048 + i] == 2 {
        return wave_at(w, 20);
    }
    wave_at(w, 110)
}

// The code of a real, whose number is not read.
pub fn on_real_code(w: Wave, t: Text, n: usize, store: &[u64]) -> Wave
    requires { (length store.now ≡ 8468) × (n ≤ 1024) }
    ensures { result ≡ on_real_code w t n store.now }
{
    if t.length > 8 {
        return wave_at(w, 112);
    }
    if text_is(t, Keyword::END) {
        return wave_at(w, 110);
    }
    let i = find(store, n, t.low);
    real_test(w, t.plain, t.low, i, n, store)
}
