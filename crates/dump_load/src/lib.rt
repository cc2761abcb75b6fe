// Loading a dump: a reader is begun, one piece is read, and the text is ended.
#![tactic(auto)]

mod answer;
mod begin;
mod load;

pub use answer::{Loaded, answer_of, refused_with};
pub use begin::{first_reader, put_table};
pub use load::{frames_fit, load_dump};
