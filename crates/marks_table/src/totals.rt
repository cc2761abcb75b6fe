// How many cycles have each mark.
use crate::names::{ALL_MARKS, name_of};
use counts::totals;
use marks_line::Line;
use rules::MARKS;
use std::io;

pub fn print_totals(rt: &impl Print, rows: &[u32]) -> io::Result<()> {
    let counts = totals(rows).unwrap_or([0; MARKS]);
    let mut line = Line::new();
    let mut between = "totals: ";
    for (mark, count) in ALL_MARKS.iter().zip(counts.iter()) {
        line.put(between);
        line.put(name_of(*mark));
        line.put(" ");
        line.put_number(u64::from(*count));
        between = ", ";
    }
    line.print(rt)
}
