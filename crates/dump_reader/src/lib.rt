// A reader of dumps, byte by byte: its state, a word that is begun, goes on and ends, the bytes of a piece, and the end of the text.
#![tactic(auto)]

mod changes;
mod ending;
mod piece;
mod run;
mod state;
mod word;
mod word_end;

pub use ending::end_text;
pub use piece::read_bytes;
pub use state::{Reader, is_refused, place_of};
pub use word::Word;
