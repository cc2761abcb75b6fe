// The names of the marks.
use marks_line::Line;
use rules::{CLOSED, FAILURE, ILLEGAL_START, MARKS, OPENED, RESTARTED, UNKNOWN};

// The marks in the order of their weights.
pub const ALL_MARKS: [u32; MARKS] = [FAILURE, ILLEGAL_START, OPENED, CLOSED, RESTARTED, UNKNOWN];

// The name of a mark, by its weight in a row.
pub fn name_of(mark: u32) -> &'static str {
    match mark {
        FAILURE => "failure",
        ILLEGAL_START => "illegal start",
        OPENED => "opened",
        CLOSED => "closed",
        RESTARTED => "restarted",
        _ => "unknown",
    }
}

// The names of a row's marks, with a comma between two; - for none.
pub fn put_marks(line: &mut Line, row: u32) {
    if row % 64 == 0 {
        line.put("-");
    }
    let mut between = "";
    for mark in ALL_MARKS {
        if row & mark != 0 {
            line.put(between);
            line.put(name_of(mark));
            between = ", ";
        }
    }
}
