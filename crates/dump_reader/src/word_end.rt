// The end of a word: what it says is told by the place of the grammar.
ghost use Rattle.std.specs.Prelude.{◌≡◌, ◌≤◌, length};
ghost use Rattle.dump_find.specs.Find.{bounded};
ghost use Rattle.dump_declare.specs.Declare.{at, declaration_head, declaration_store};
ghost use Rattle.dump_change.specs.Change.{word_wave, word_store, word_frames};
ghost use Rattle.dump_reader.specs.Machine.{ended, first_wave, last_place, last_store, end_word};

use crate::state::Reader;
use crate::word::Word;
use dump_change::{Wave, change_word};
use dump_declare::{Head, at_place, declaration};
use dump_find::bounded_count;
use dump_values::{connect, table_good};
use dump_words::{Keyword, Text, text_is};

// Behind the word; its line is kept for a refusal.
fn behind(r: Reader, head: Head, wave: Wave) -> Reader
    ensures { result ≡ ended r head wave }
{
    Reader {
        shown: r.line,
        word: Word::NONE,
        head,
        wave,
        ..r
    }
}

fn end_declaration(r: Reader, store: &mut [u64]) -> Reader
    requires { length store.old ≡ 8468 }
    ensures { (result ≡ ended r (declaration_head r.head r.word.text r.word.number r.word.scan store.old) r.wave) × (store.new ≡ declaration_store r.head r.word.text r.word.scan store.old) }
{
    let word = r.word;
    let head = declaration(r.head, word.text, word.number, word.scan, store);
    behind(r, head, r.wave)
}

// Which place follows the `$end` of `$enddefinitions`, or the word in its place.
fn last_place(h: Head, t: Text, store: &[u64]) -> u64
    requires { length store.now ≡ 8468 }
    ensures { result ≡ last_place h t store.now }
{
    if text_is(t, Keyword::END) {
        let n = bounded_count(h.codes);
        if table_good(store, n) {
            return 20;
        }
        return 113;
    }
    110
}

fn connect_last(h: Head, t: Text, store: &mut [u64]) -> u64
    requires { length store.old ≡ 8468 }
    ensures { (result ≡ last_place h t store.old) × (store.new ≡ last_store h t store.old) }
{
    let place = last_place(h, t, store);
    if place == 20 {
        let n = bounded_count(h.codes);
        connect(store, n);
        return place;
    }
    place
}

fn end_last(r: Reader, store: &mut [u64]) -> Reader
    requires { length store.old ≡ 8468 }
    ensures { (result ≡ ended r (at r.head (last_place r.head r.word.text store.old)) first_wave) × (store.new ≡ last_store r.head r.word.text store.old) }
{
    let place = connect_last(r.head, r.word.text, store);
    let head = at_place(r.head, place);
    let wave = Wave {
        place: 20,
        ..Wave::START
    };
    behind(r, head, wave)
}

fn end_change(r: Reader, store: &mut [u64], digits: &[u8], frames: &mut [u32]) -> Reader
    requires { (length store.old ≡ 8468) × (length digits.now ≡ 4096) × (length frames.old ≤ 524288) }
    ensures { (result ≡ ended r r.head (word_wave r.wave r.word.class r.word.text r.word.number r.word.count r.word.wrong (bounded r.head.codes) store.old frames.old)) × (store.new ≡ word_store r.wave r.word.class r.word.text r.word.number (bounded r.head.codes) store.old digits.now frames.old) × (frames.new ≡ word_frames r.wave r.word.class r.word.number store.old frames.old) }
{
    let word = r.word;
    let n = bounded_count(r.head.codes);
    let wave = change_word(
        r.wave,
        word.class,
        word.text,
        word.number,
        word.count,
        word.wrong,
        n,
        store,
        digits,
        frames,
    );
    behind(r, r.head, wave)
}

pub fn end_word(r: Reader, store: &mut [u64], digits: &[u8], frames: &mut [u32]) -> Reader
    requires { (length store.old ≡ 8468) × (length digits.now ≡ 4096) × (length frames.old ≤ 524288) }
    ensures { record { reader = result; store = store.new; digits = digits.now; frames = frames.new } ≡ end_word (record { reader = r; store = store.old; digits = digits.now; frames = frames.old }) }
{
    if r.head.place == 20 {
        return end_change(r, store, digits, frames);
    }
    if r.head.place == 13 {
        return end_last(r, store);
    }
    end_declaration(r, store)
}
