// The changes of a dump and its samples: what is known between two words, and one function for each word that may be due.
#![tactic(auto)]

mod digits;
mod dollar;
mod sample;
mod stamp;
mod wave;
mod word;

pub use dollar::value_of;
pub use sample::close_stamp;
pub use wave::{Wave, wave_at};
pub use word::change_word;
