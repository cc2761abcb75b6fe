// The bytes of one word behind its first, up to white space or the end of the piece.
ghost use Rattle.std.specs.Prelude.{List, ◌≡◌, ℕ, ◌≤◌, length};
ghost use Rattle.dump_reader.specs.declared.word.Word.{Word};
ghost use Rattle.dump_reader.specs.Machine.{number_word, continued};
ghost use Rattle.dump_reader.specs.Runs.{text_of, vector_of, Gathers};

use crate::state::is_blank;
use dump_change::value_of;
use dump_words::{Number, Text, add_digit, add_text};

// What is kept of a word to which each further byte is added in the same way: a text, or the number of a stamp.
pub trait Gather: Copy {
    // The word of which it is kept.
    ghost word: { Self → Word };

    // One more byte, which goes into no digits of a vector.
    fn add(self, b: u8) -> Self
        ensures { (word result ≡ continued (word self) b) × ((word self).class ≡ 0 → ⊥) × ((word self).class ≡ 4 → ⊥) };
}

impl Gather for Text {
    ghost word = { text_of };

    fn add(self, b: u8) -> Text {
        add_text(self, b)
    }
}

impl Gather for Number {
    ghost word = { number_word };

    fn add(self, b: u8) -> Number {
        add_digit(self, b)
    }
}

// How far it went, and what is kept.
#[derive(Clone, Copy)]
pub struct Run<G> {
    pub at: usize,
    pub kept: G,
}

pub fn gather_run<G: Gather>(first: G, bytes: &[u8], from: usize) -> Run<G>
    requires { from ≤ length bytes.now }
    ensures { (from ≤ result.at) × (result.at ≤ length bytes.now) × ((d : List ℕ) → Gathers bytes.now (G.word first) from d (G.word result.kept) result.at d) }
{
    let mut kept = first;
    for i in from..bytes.len() {
        let b = bytes[i];
        if is_blank(b) {
            return Run { at: i, kept };
        }
        kept = kept.add(b);
    }
    Run {
        at: bytes.len(),
        kept,
    }
}

#[derive(Clone, Copy)]
pub struct VectorRun {
    pub at: usize,
    pub count: usize,
}

// Up to a byte that is no digit, too.
pub fn vector_run(bytes: &[u8], from: usize, digits: &mut [u8]) -> VectorRun
    requires { (from ≤ length bytes.now) × (length digits.old ≡ 4096) }
    ensures { (from ≤ result.at) × (result.at ≤ length bytes.now) × (result.count ≤ 4096) × Gathers bytes.now (vector_of 0) from digits.old (vector_of result.count) result.at digits.new }
{
    let mut count = 0;
    for i in from..bytes.len() {
        let v = value_of(bytes[i]);
        if v == 3 {
            return VectorRun { at: i, count };
        }
        if count >= 4096 {
            return VectorRun { at: i, count };
        }
        digits[count] = v;
        count += 1;
    }
    VectorRun {
        at: bytes.len(),
        count,
    }
}
