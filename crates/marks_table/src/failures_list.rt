// The failures of a trace, each with the start of its check.
use crate::names::name_of;
use failures::failures;
use marks_line::Line;
use rules::{Config, Refusal};
use std::io;

// One entry of the list.
fn print_entry(rt: &impl Print, cycle: u32, mark: u32, start: u32) -> io::Result<()> {
    let mut line = Line::new();
    line.put(name_of(mark));
    line.put(" in cycle ");
    line.put_number(u64::from(cycle));
    line.put(", start in cycle ");
    line.put_number(u64::from(start));
    line.print(rt)
}

// The first `count` entries of a list.
fn print_entries(rt: &impl Print, list: &[u32], count: usize) -> io::Result<()> {
    let (entries, _) = list.as_chunks::<3>();
    for [cycle, mark, start] in entries.iter().take(count) {
        print_entry(rt, *cycle, *mark, *start)?;
    }
    Ok(())
}

// The failures, in a list that has room for two entries for each of 65,536 cycles. That is enough: an attempt fails once, and a window at most once in a cycle,
// with at most one illegal start. It is not proved here, so a list that is too short is spoken of: then no entry is written.
pub fn print_failures(rt: &impl Print, c: Config, trace: &[u32]) -> io::Result<()> {
    let mut list = [0u32; 393216];
    match failures(c, trace, &mut list) {
        Err(Refusal::ListRoom) => {
            rt.println("the list of failures has more than 131,072 entries and is left out")
        }
        // There is no other refusal: the checker and the trace are accepted.
        Err(_) | Ok(0) => rt.println("no failures"),
        Ok(count) => print_entries(rt, &list, count),
    }
}
