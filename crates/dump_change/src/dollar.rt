// Keywords among the changes, the value that a byte says, and the words that only say what is due.
ghost use Rattle.std.specs.Prelude.{◌≡◌};
ghost use Rattle.dump.specs.Changes.{value_of};
ghost use Rattle.dump_change.specs.Change.{dumps, in_dump, on_dollar, on_comment, on_vector, on_real};

use crate::wave::{Wave, wave_at};
use dump_words::{Keyword, Text, is_one_of, text_is};

// 0, 1, or 2 for x and z; 3 for any other byte. The definition `value_of` and the digits in a reader's state have the 3 too, so it is no Option.
pub fn value_of(b: u8) -> u8
    ensures { result ≡ value_of b }
{
    if b < 48 {
        return 3;
    }
    if b < 50 {
        return b - 48;
    }
    if b == 120 {
        return 2;
    }
    if b == 88 {
        return 2;
    }
    if b == 122 {
        return 2;
    }
    if b == 90 {
        return 2;
    }
    3
}

fn with_dumping(w: Wave, dumping: u64) -> Wave
    ensures { result ≡ dumps w dumping }
{
    Wave {
        place: 20,
        dumping,
        ..w
    }
}

// A keyword within a dump command.
fn in_dump(w: Wave, t: Text) -> Wave
    ensures { result ≡ in_dump w t }
{
    if text_is(t, Keyword::END) {
        return with_dumping(w, 0);
    }
    wave_at(w, 110)
}

pub fn on_dollar(w: Wave, t: Text) -> Wave
    ensures { result ≡ on_dollar w t }
{
    if w.dumping != 0 {
        return in_dump(w, t);
    }
    // $dumpall $dumpoff $dumpon $dumpvars
    let words = [
        Keyword(8, 7812726589081609252, 0),
        Keyword(8, 7378707568156566564, 0),
        Keyword(7, 31084776101602340, 0),
        Keyword(9, 8241999018309542948, 115),
    ];
    if is_one_of(t, &words) {
        return with_dumping(w, 1);
    }
    // $comment
    if text_is(t, Keyword(8, 8389754676499669796, 0)) {
        return wave_at(w, 23);
    }
    wave_at(w, 110)
}

// A word of a comment, and `$end`.
pub fn on_comment(w: Wave, t: Text) -> Wave
    ensures { result ≡ on_comment w t }
{
    if text_is(t, Keyword::END) {
        return wave_at(w, 20);
    }
    w
}

// A vector of `count` digits, of which some may be wrong.
pub fn on_vector(w: Wave, count: u64, wrong: u64) -> Wave
    ensures { result ≡ on_vector w count wrong }
{
    if count == 0 {
        return wave_at(w, 110);
    }
    if wrong != 0 {
        return wave_at(w, 110);
    }
    Wave {
        place: 21,
        count,
        ..w
    }
}

// A real's number: at least one byte behind the first.
pub fn on_real(w: Wave, t: Text) -> Wave
    ensures { result ≡ on_real w t }
{
    if t.length < 2 {
        return wave_at(w, 110);
    }
    wave_at(w, 22)
}
