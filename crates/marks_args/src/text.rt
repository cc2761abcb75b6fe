// Words as the reader of dumps keeps them, so that a code of the arguments and a code of the dump are the same number.
ghost use Rattle.std.specs.Prelude.{◌≡◌};
ghost use Rattle.dump_words.specs.Gather.{no_text, no_number};
ghost use Rattle.dump_gathered.specs.Gathered.{text_of, number_of};

use dump_words::{Number, Text, add_digit, add_text};

pub fn text_of(word: &[u8]) -> Text
    ensures { result ≡ text_of no_text word.now }
{
    let mut t = Text::EMPTY;
    for b in word {
        t = add_text(t, *b);
    }
    t
}

pub fn number_of(word: &[u8]) -> Number
    ensures { result ≡ number_of no_number word.now }
{
    let mut n = Number::NONE;
    for b in word {
        n = add_digit(n, *b);
    }
    n
}
