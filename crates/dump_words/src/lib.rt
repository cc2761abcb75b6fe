// What a reader of dumps keeps of the word that it reads: a bounded part, from which everything that is asked of a word follows.
#![tactic(auto)]

mod number;
mod scan;
mod text;

pub use number::{Number, add_digit};
pub use scan::{Scan, add_scan};
pub use text::{Keyword, Text, add_text, is_one_of, one_of, text_is};
