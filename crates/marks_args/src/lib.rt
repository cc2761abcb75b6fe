// The arguments of the program `marks`: the table of connections, and a checker.
#![tactic(auto)]

mod argument;
mod faults;
mod keyword;
mod options;
mod settings;
mod text;
mod wires;

pub use argument::{has_argument, read_argument};
pub use faults::{Fault, Misuse};
pub use keyword::Keyword;
pub use options::read_settings;
pub use settings::Settings;
