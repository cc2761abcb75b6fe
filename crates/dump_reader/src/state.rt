// The state of a reader between two bytes, but for its arrays.
ghost use Rattle.std.specs.Prelude.{◌≡◌};
ghost use Rattle.dump.specs.Text.{blank};
ghost use Rattle.dump_reader.specs.Machine.{place_of, refused, new_line, count_lines};

use crate::word::Word;
use dump_change::Wave;
use dump_declare::Head;

// Part of a reader's state, which the C host hands over with any bytes in it: so `started` is a number, and no bool.
#[repr(C)]
#[derive(Clone, Copy)]
pub struct Reader {
    // 1 and the number of bytes 10 so far.
    pub line: u64,
    // 1 where the last white space was no byte 10.
    pub started: u64,
    // The line of the last word that was read.
    pub shown: u64,
    pub word: Word,
    pub head: Head,
    pub wave: Wave,
}

// White space is 9 to 13 and 32.
pub fn is_blank(b: u8) -> bool
    ensures { result ≡ blank b }
{
    if b > 32 {
        return false;
    }
    if b == 32 {
        return true;
    }
    if b < 9 {
        return false;
    }
    b <= 13
}

// The place of the grammar: of the declarations, and behind them of the changes.
pub fn place_of(r: Reader) -> u64
    ensures { result ≡ place_of r }
{
    if r.head.place == 20 {
        return r.wave.place;
    }
    r.head.place
}

pub fn is_refused(r: Reader) -> bool
    ensures { result ≡ refused r }
{
    place_of(r) >= 100
}

// White space behind a word, or between words.
pub fn new_line(r: Reader, b: u8) -> Reader
    ensures { result ≡ new_line r b }
{
    if b == 10 {
        // No `saturating_add`: its proof needs that the line is a number of 64 bits, which a proof does not know of a struct's field.
        if r.line < 18446744073709551615 {
            return Reader {
                line: r.line + 1,
                started: 0,
                ..r
            };
        }
        return Reader { started: 0, ..r };
    }
    Reader { started: 1, ..r }
}

// The line count of the text so far.
pub fn count_lines(r: Reader) -> u64
    ensures { result ≡ count_lines r }
{
    if r.word.class != 0 {
        return r.line;
    }
    if r.started != 0 {
        return r.line;
    }
    r.line.saturating_sub(1)
}
