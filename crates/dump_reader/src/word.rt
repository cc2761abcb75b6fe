// What is kept of the word that is read.
ghost use Rattle.std.specs.Prelude.{◌≡◌, length};
ghost use Rattle.dump.specs.Changes.{value_of};
ghost use Rattle.dump_reader.specs.Machine.{text_word, number_word, scan_word, name_scan, range_scan, begun_change, begun, vector_add, vector_digits, continued, continued_digits};

use dump_change::value_of;
use dump_words::{Number, Scan, Text, add_digit, add_scan, add_text};

// Part of a reader's state, which the C host hands over with any bytes in it: so its class is a number, and no enum that holds what is kept of it.
#[repr(C)]
#[derive(Clone, Copy)]
pub struct Word {
    // 0 no word, 1 a text, 2 a number, 3 a text and the range at its end, 4 the digits of a vector.
    pub class: u64,
    // How many digits a vector has, up to 4,097, and 1 where a byte among them is none.
    pub count: u64,
    pub wrong: u64,
    pub text: Text,
    pub number: Number,
    pub scan: Scan,
}

impl Word {
    // No word is open.
    pub const NONE: Word = Word {
        class: 0,
        count: 0,
        wrong: 0,
        text: Text::EMPTY,
        number: Number::NONE,
        scan: Scan::NONE,
    };
}

fn text_word(b: u8) -> Word
    ensures { result ≡ text_word b }
{
    Word {
        class: 1,
        text: add_text(Text::EMPTY, b),
        ..Word::NONE
    }
}

// A number: of a width from its first byte on, of a stamp behind it.
fn number_word(number: Number) -> Word
    ensures { result ≡ number_word number }
{
    Word {
        class: 2,
        number,
        ..Word::NONE
    }
}

fn scan_word(b: u8, scan: Scan) -> Word
    ensures { result ≡ scan_word b scan }
{
    Word {
        class: 3,
        scan,
        ..text_word(b)
    }
}

fn name_word(b: u8) -> Word
    ensures { result ≡ scan_word b (name_scan b) }
{
    let none = Scan::NONE;
    if b == 92 {
        return scan_word(b, Scan { kind: 1, ..none });
    }
    scan_word(b, Scan { counts: 1, ..none })
}

fn range_word(b: u8) -> Word
    ensures { result ≡ scan_word b (range_scan b) }
{
    let none = Scan {
        kind: 2,
        ..Scan::NONE
    };
    if b == 91 {
        return scan_word(b, Scan { phase: 1, ..none });
    }
    scan_word(b, none)
}

// The first byte of a word where a change is due.
fn begin_change(b: u8) -> Word
    ensures { result ≡ begun_change b }
{
    if b == 35 {
        return number_word(Number::NONE);
    }
    let vector = Word {
        class: 4,
        ..Word::NONE
    };
    if b == 98 {
        return vector;
    }
    if b == 66 {
        return vector;
    }
    text_word(b)
}

// The first byte of a word, at a place of the grammar.
pub fn begin_word(place: u64, b: u8) -> Word
    ensures { result ≡ begun place b }
{
    if place == 20 {
        return begin_change(b);
    }
    if place == 8 {
        return number_word(add_digit(Number::NONE, b));
    }
    if place == 10 {
        return name_word(b);
    }
    if place == 11 {
        return range_word(b);
    }
    text_word(b)
}

fn add_value(w: Word, v: u8) -> Word
    ensures { result ≡ vector_add w v }
{
    let wrong = if v == 3 { 1 } else { w.wrong };
    if w.count < 4096 {
        return Word {
            count: w.count + 1,
            wrong,
            ..w
        };
    }
    Word {
        count: 4097,
        wrong,
        ..w
    }
}

// One more digit of a vector.
fn add_vector(w: Word, b: u8, digits: &mut [u8]) -> Word
    requires { length digits.old ≡ 4096 }
    ensures { (result ≡ vector_add w (value_of b)) × (digits.new ≡ vector_digits w b digits.old) }
{
    let v = value_of(b);
    if w.count < 4096 {
        digits[w.count as usize] = v;
        return add_value(w, v);
    }
    add_value(w, v)
}

// One more byte of a word.
pub fn add_byte(w: Word, b: u8, digits: &mut [u8]) -> Word
    requires { length digits.old ≡ 4096 }
    ensures { (result ≡ continued w b) × (digits.new ≡ continued_digits w b digits.old) }
{
    if w.class == 4 {
        return add_vector(w, b, digits);
    }
    if w.class == 2 {
        return Word {
            number: add_digit(w.number, b),
            ..w
        };
    }
    let text = add_text(w.text, b);
    if w.class == 3 {
        return Word {
            text,
            scan: add_scan(w.scan, b),
            ..w
        };
    }
    Word { text, ..w }
}
