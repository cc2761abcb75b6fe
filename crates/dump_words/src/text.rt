// The first sixteen bytes of a word, its length up to 17, and whether it could be a code.
ghost use Rattle.std.specs.Prelude.{◌≡◌};
ghost use Rattle.dump_words.specs.Gather.{text_add, plain_after, text_is, text_in, numbers_of};

// Part of a reader's state, which the C host hands over with any bytes in it: so its fields are numbers, and no enum.
#[repr(C)]
#[derive(Clone, Copy)]
pub struct Text {
    // 17 stands for every greater length.
    pub length: u64,
    // The first eight bytes, the first lowest, and the next eight.
    pub low: u64,
    pub high: u64,
    // 1 while every byte is one of 33 to 126.
    pub plain: u64,
}

impl Text {
    // Of a word with no byte yet.
    pub const EMPTY: Text = Text {
        length: 0,
        low: 0,
        high: 0,
        plain: 1,
    };
}

// A word of at most sixteen bytes: its length, its first eight bytes and its next eight, as a text has them.
#[derive(Clone, Copy)]
pub struct Keyword(pub u64, pub u64, pub u64);

impl Keyword {
    // $end
    pub const END: Keyword = Keyword(4, 1684956452, 0);
}

fn plain_after(plain: u64, b: u8) -> u64
    ensures { result ≡ plain_after plain b }
{
    if b < 33 {
        return 0;
    }
    if b > 126 {
        return 0;
    }
    plain
}

// One more byte.
pub fn add_text(t: Text, b: u8) -> Text
    ensures { result ≡ text_add t b }
{
    let plain = plain_after(t.plain, b);
    let n = t.length;
    if n < 8 {
        let low = t.low | ((b as u64) << (8 * n));
        return Text {
            length: n + 1,
            low,
            plain,
            ..t
        };
    }
    if n < 16 {
        let high = t.high | ((b as u64) << (8 * (n - 8)));
        return Text {
            length: n + 1,
            high,
            plain,
            ..t
        };
    }
    Text {
        length: 17,
        plain,
        ..t
    }
}

// Whether the word is this one.
pub fn text_is(t: Text, k: Keyword) -> bool
    ensures { result ≡ text_is t k.0 k.1 k.2 }
{
    if t.length != k.0 {
        return false;
    }
    if t.low != k.1 {
        return false;
    }
    t.high == k.2
}

// Whether the word is one of a list: three numbers of each, as a keyword has them. One or two numbers left over at the end are no word.
pub fn one_of(t: Text, list: &[u64]) -> bool
    ensures { result ≡ text_in t list.now }
{
    for k in list.chunks_exact(3) {
        if text_is(t, Keyword(k[0], k[1], k[2])) {
            return true;
        }
    }
    false
}

// Whether the word is one of these keywords.
pub fn is_one_of(t: Text, list: &[Keyword]) -> bool
    ensures { result ≡ text_in t (numbers_of list.now) }
{
    for k in list {
        if text_is(t, *k) {
            return true;
        }
    }
    false
}
