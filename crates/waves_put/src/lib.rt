// Bytes of a text, written one behind the other into a lent slice.
#![tactic(auto)]

mod number;
mod text;

pub use number::{put_number, put_small};
pub use text::put_text;
