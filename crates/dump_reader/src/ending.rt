// The end of the text.
ghost use Rattle.std.specs.Prelude.{◌≡◌, List, ℕ, ◌≤◌, length};
ghost use Rattle.dump_reader.specs.Machine.{refused_at, complete, unfinished, closing, finish_at, finish};

use crate::state::{Reader, count_lines, is_refused};
use crate::word_end::end_word;
use dump_change::{Wave, close_stamp, wave_at};
use dump_declare::at_place;

// Whether the declarations have ended, and no command or change is unfinished.
fn is_complete(r: Reader) -> bool
    ensures { result ≡ complete r }
{
    if r.head.place != 20 {
        return false;
    }
    if r.wave.place != 20 {
        return false;
    }
    r.wave.dumping == 0
}

// What is answered of the end, in the last line.
fn at_end(r: Reader, count: u64, place: u64, wave: Wave) -> Reader
    ensures { result ≡ refused_at r count place wave }
{
    Reader {
        shown: count,
        head: at_place(r.head, place),
        wave,
        ..r
    }
}

// The text ends where it must not.
fn unfinished_at(r: Reader, count: u64) -> Reader
    ensures { result ≡ unfinished r count }
{
    if r.head.place == 20 {
        return at_end(r, count, 20, wave_at(r.wave, 110));
    }
    at_end(r, count, 110, r.wave)
}

// The end closes the last stamp.
fn close_text(r: Reader, count: u64, store: &[u64], frames: &mut [u32]) -> Reader
    requires { (length store.now ≡ 8468) × (length frames.old ≤ 524288) }
    ensures { (digits : List ℕ) → record { reader = result; store = store.now; digits = digits; frames = frames.new } ≡ closing (record { reader = r; store = store.now; digits = digits; frames = frames.old }) count }
{
    if is_complete(r) {
        let wave = close_stamp(r.wave, store, frames);
        return at_end(r, count, r.head.place, wave);
    }
    unfinished_at(r, count)
}

fn finish_at(r: Reader, count: u64, store: &[u64], frames: &mut [u32]) -> Reader
    requires { (length store.now ≡ 8468) × (length frames.old ≤ 524288) }
    ensures { (digits : List ℕ) → record { reader = result; store = store.now; digits = digits; frames = frames.new } ≡ finish_at (record { reader = r; store = store.now; digits = digits; frames = frames.old }) count }
{
    if is_refused(r) {
        return r;
    }
    close_text(r, count, store, frames)
}

// A word that is open ends too.
pub fn end_text(r: Reader, store: &mut [u64], digits: &[u8], frames: &mut [u32]) -> Reader
    requires { (length store.old ≡ 8468) × (length digits.now ≡ 4096) × (length frames.old ≤ 524288) }
    ensures { record { reader = result; store = store.new; digits = digits.now; frames = frames.new } ≡ finish (record { reader = r; store = store.old; digits = digits.now; frames = frames.old }) }
{
    if is_refused(r) {
        return r;
    }
    let count = count_lines(r);
    if r.word.class == 0 {
        return finish_at(r, count, store, frames);
    }
    let s = end_word(r, store, digits, frames);
    finish_at(s, count, store, frames)
}
