// What the C host calls to read dumps: the proved calls, on lent slices and a state by value.
#![tactic(auto)]

mod loads;
mod readers;

pub use loads::selvedgeon_load;
pub use readers::{selvedgeon_reader_begin, selvedgeon_reader_end, selvedgeon_reader_piece};
