// One word of the changes, by the word that is due.
ghost use Rattle.std.specs.Prelude.{◌≡◌, ◌≤◌, length};
ghost use Rattle.dump_change.specs.Change.{text_wave, text_store, change_wave, change_store, change_frames, code_wave, code_store, word_wave, word_store, word_frames};

use crate::digits::{on_real_code, on_scalar, on_vector_code};
use crate::dollar::{on_comment, on_dollar, on_real, on_vector, value_of};
use crate::stamp::on_stamp;
use crate::wave::{Wave, wave_at};
use dump_words::{Number, Text};

// A word of which the text is kept, where a change is due: it is told by its first byte.
fn on_text(w: Wave, t: Text, n: usize, store: &mut [u64]) -> Wave
    requires { (length store.old ≡ 8468) × (n ≤ 1024) }
    ensures { (result ≡ text_wave w t n store.old) × (store.new ≡ text_store w t n store.old) }
{
    let b = (t.low % 256) as u8;
    let v = value_of(b);
    if v < 3 {
        return on_scalar(w, v, t, n, store);
    }
    if b == 36 {
        return on_dollar(w, t);
    }
    if b == 114 {
        return on_real(w, t);
    }
    if b == 82 {
        return on_real(w, t);
    }
    wave_at(w, 110)
}

// A word where a change is due: of class 2 a stamp, of class 4 a vector, else a text.
fn on_change(
    w: Wave,
    class: u64,
    t: Text,
    number: Number,
    count: u64,
    wrong: u64,
    n: usize,
    store: &mut [u64],
    frames: &mut [u32],
) -> Wave
    requires { (length store.old ≡ 8468) × (n ≤ 1024) × (length frames.old ≤ 524288) }
    ensures { (result ≡ change_wave w class t number count wrong n store.old frames.old) × (store.new ≡ change_store w class t number n store.old frames.old) × (frames.new ≡ change_frames w class number store.old frames.old) }
{
    if class == 2 {
        return on_stamp(w, number, store, frames);
    }
    if class == 4 {
        return on_vector(w, count, wrong);
    }
    on_text(w, t, n, store)
}

// A word where a code is due, or in a comment.
fn on_code(w: Wave, t: Text, n: usize, store: &mut [u64], digits: &[u8]) -> Wave
    requires { (length store.old ≡ 8468) × (n ≤ 1024) × (length digits.now ≡ 4096) }
    ensures { (result ≡ code_wave w t n store.old) × (store.new ≡ code_store w t n store.old digits.now) }
{
    if w.place == 21 {
        return on_vector_code(w, t, n, store, digits);
    }
    if w.place == 22 {
        return on_real_code(w, t, n, store);
    }
    if w.place == 23 {
        return on_comment(w, t);
    }
    w
}

// What is kept of the word: its class, its text, the number of a stamp, or the digits of a vector.
pub fn change_word(
    w: Wave,
    class: u64,
    t: Text,
    number: Number,
    count: u64,
    wrong: u64,
    n: usize,
    store: &mut [u64],
    digits: &[u8],
    frames: &mut [u32],
) -> Wave
    requires { (length store.old ≡ 8468) × (n ≤ 1024) × (length digits.now ≡ 4096) × (length frames.old ≤ 524288) }
    ensures { (result ≡ word_wave w class t number count wrong n store.old frames.old) × (store.new ≡ word_store w class t number n store.old digits.now frames.old) × (frames.new ≡ word_frames w class number store.old frames.old) }
{
    if w.place == 20 {
        return on_change(w, class, t, number, count, wrong, n, store, frames);
    }
    on_code(w, t, n, store, digits)
}
