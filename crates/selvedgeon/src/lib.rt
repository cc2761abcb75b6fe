// What the C host calls: the proved calls, on numbers and lent slices. The C interface hands over a configuration as eleven numbers, and a slice as it is lent.
#![tactic(auto)]

mod calls;
mod numbers;
mod step;
mod table;

pub use calls::{
    selvedgeon_check, selvedgeon_edit_and_take_back, selvedgeon_failures, selvedgeon_recheck,
    selvedgeon_totals,
};
pub use numbers::{selvedgeon_first_failure, selvedgeon_open_count};
pub use step::selvedgeon_step;
pub use table::selvedgeon_bench;
