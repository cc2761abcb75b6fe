// The bytes of a piece.
ghost use Rattle.std.specs.Prelude.{◌≡◌, List, ℕ, ◌≤◌, ◌<◌, true, false, length, get_or, drop};
ghost use Rattle.dump.specs.Text.{blank};
ghost use Rattle.dump_reader.specs.Machine.{refused, add_byte, closed_word, lined, byte_step, feed};
ghost use Rattle.dump_reader.specs.Runs.{open_word};

use crate::changes::{Changes, past_all};
use crate::state::{Reader, is_blank, is_refused, new_line, place_of};
use crate::word::{Word, add_byte, begin_word};
use crate::word_end::end_word;
use dump_find::bounded_count;

// A byte of a word: its first, or one more.
fn word_byte(r: Reader, b: u8, digits: &mut [u8]) -> Reader
    requires { length digits.old ≡ 4096 }
    ensures { (store frames : List ℕ) → record { reader = result; store = store; digits = digits.new; frames = frames } ≡ add_byte (record { reader = r; store = store; digits = digits.old; frames = frames }) b }
{
    if r.word.class == 0 {
        let word = begin_word(place_of(r), b);
        return Reader { word, ..r };
    }
    let word = add_byte(r.word, b, digits);
    Reader { word, ..r }
}

// White space: it ends a word that is open.
fn blank_byte(r: Reader, b: u8, store: &mut [u64], digits: &[u8], frames: &mut [u32]) -> Reader
    requires { (length store.old ≡ 8468) × (length digits.now ≡ 4096) × (length frames.old ≤ 524288) }
    ensures { record { reader = result; store = store.new; digits = digits.now; frames = frames.new } ≡ lined (closed_word (record { reader = r; store = store.old; digits = digits.now; frames = frames.old })) b }
{
    if r.word.class == 0 {
        return new_line(r, b);
    }
    let s = end_word(r, store, digits, frames);
    new_line(s, b)
}

// One byte.
fn read_byte(r: Reader, b: u8, store: &mut [u64], digits: &mut [u8], frames: &mut [u32]) -> Reader
    requires { (length store.old ≡ 8468) × (length digits.old ≡ 4096) × (length frames.old ≤ 524288) }
    ensures { record { reader = result; store = store.new; digits = digits.new; frames = frames.new } ≡ byte_step (record { reader = r; store = store.old; digits = digits.old; frames = frames.old }) b }
{
    if is_blank(b) {
        return blank_byte(r, b, store, digits, frames);
    }
    word_byte(r, b, digits)
}

// Whether a word of the changes begins with the byte b.
fn begins_change(r: Reader, b: u8) -> bool
    ensures { result ≡ true → (r.word.class ≡ 0) × (r.head.place ≡ 20) × (refused r ≡ false) × (blank b ≡ false) }
{
    if r.word.class != 0 {
        return false;
    }
    if r.head.place != 20 {
        return false;
    }
    if is_refused(r) {
        return false;
    }
    if is_blank(b) {
        return false;
    }
    true
}

// The word that is open behind the changes.
fn open_word(held: u64) -> Word
    ensures { result ≡ open_word held }
{
    if held == 0 {
        return Word::NONE;
    }
    Word {
        class: 4,
        count: held - 1,
        ..Word::NONE
    }
}

#[repr(C)]
#[derive(Clone, Copy)]
pub struct Position {
    pub at: usize,
    pub reader: Reader,
}

// The words of the changes, from the first byte of one on.
fn all_changes(
    r: Reader,
    bytes: &[u8],
    from: usize,
    store: &mut [u64],
    digits: &mut [u8],
    frames: &mut [u32],
) -> Position
    requires { (length store.old ≡ 8468) × (length digits.old ≡ 4096) × (length frames.old ≤ 524288) × (from < length bytes.now) × (r.word.class ≡ 0) × (r.head.place ≡ 20) × (refused r ≡ false) × (blank (get_or bytes.now from 0) ≡ false) }
    ensures { (from ≤ result.at) × (result.at ≤ length bytes.now) × (feed (record { reader = r; store = store.old; digits = digits.old; frames = frames.old }) (drop from bytes.now) ≡ feed (record { reader = result.reader; store = store.new; digits = digits.new; frames = frames.new }) (drop result.at bytes.now)) }
{
    let n = bounded_count(r.head.codes);
    let start = Changes {
        at: from,
        line: r.line,
        started: r.started,
        shown: r.shown,
        held: 0,
        wave: r.wave,
    };
    let c = past_all(start, n, bytes, store, digits, frames);
    let word = open_word(c.held);
    let reader = Reader {
        line: c.line,
        started: c.started,
        shown: c.shown,
        word,
        wave: c.wave,
        ..r
    };
    Position { at: c.at, reader }
}

// As far as whole words go.
fn ahead(
    r: Reader,
    bytes: &[u8],
    from: usize,
    store: &mut [u64],
    digits: &mut [u8],
    frames: &mut [u32],
) -> Position
    requires { (length store.old ≡ 8468) × (length digits.old ≡ 4096) × (length frames.old ≤ 524288) × (from < length bytes.now) }
    ensures { (from ≤ result.at) × (result.at ≤ length bytes.now) × (feed (record { reader = r; store = store.old; digits = digits.old; frames = frames.old }) (drop from bytes.now) ≡ feed (record { reader = result.reader; store = store.new; digits = digits.new; frames = frames.new }) (drop result.at bytes.now)) }
{
    let b = bytes[from];
    if begins_change(r, b) {
        return all_changes(r, bytes, from, store, digits, frames);
    }
    Position {
        at: from,
        reader: r,
    }
}

// All bytes; none behind the word that is refused.
pub fn read_bytes(
    r: Reader,
    bytes: &[u8],
    store: &mut [u64],
    digits: &mut [u8],
    frames: &mut [u32],
) -> Reader
    requires { (length store.old ≡ 8468) × (length digits.old ≡ 4096) × (length frames.old ≤ 524288) }
    ensures { record { reader = result; store = store.new; digits = digits.new; frames = frames.new } ≡ feed (record { reader = r; store = store.old; digits = digits.old; frames = frames.old }) bytes.now }
{
    let mut s = r;
    let mut i = 0;
    // `ahead` answers how far it went, so the loop does not take the places one by one.
    while i < bytes.len() {
        let p = ahead(s, bytes, i, store, digits, frames);
        let at = p.at;
        let t = p.reader;
        if at >= bytes.len() {
            return t;
        }
        if is_refused(t) {
            return t;
        }
        s = read_byte(t, bytes[at], store, digits, frames);
        i = at + 1;
    }
    s
}
