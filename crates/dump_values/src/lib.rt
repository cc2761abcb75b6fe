// The values of the wires that are connected, as they stand in a reader's store: from word 8,192 on the table of connections, a code and the place of
// its digit for each of 129 entries; from word 8,450 on the eight words of a frame as it is now, the same as it was before the stamp, and the clock
// now and before. Word 5,120 + i says which entries may have code i.
#![tactic(auto)]

mod put;
mod span;
mod table;

pub use put::put_value;
pub use span::change_bits;
pub use table::{connect, table_good};
