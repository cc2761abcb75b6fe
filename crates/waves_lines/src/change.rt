// The lines of the wires of one checker that change in a cycle.
ghost use Rattle.std.specs.Prelude.{[], ◌∷◌, ◌+◌, ◌^◌, ◌≤◌, ◌<◌, length};
ghost use Rattle.waves.specs.Text.{line, each};
ghost use Rattle.waves.specs.Waves.{name_of};
ghost use Rattle.waves_put.specs.Put.{Put};
ghost use Rattle.waves_lines.specs.Lines.{value_line, mark_line, marks_text};

use crate::name::put_name;

// `1k3m32`: the value, 0 or 1, and the name. Answers the place behind the line.
fn put_change(value: u32, checker: u32, mark: u32, out: &mut [u8], at: usize) -> usize
    requires { (value < 2) × (checker < 64) × (mark < 64) × (at + length (value_line value checker mark) ≤ length out.old) }
    ensures { Put (value_line value checker mark) out.old at out.new result }
{
    out[at] = (48 + value) as u8;
    let end = put_name(checker, mark, out, at + 1);
    out[end] = 10;
    end + 1
}

// The line of mark 2^i, where the row has another value of it than the row before. Answers the place behind it.
fn put_mark(row: u32, before: u32, checker: u32, i: u32, out: &mut [u8], at: usize) -> usize
    requires { (checker < 64) × (i < 6) × (at + length (mark_line row before checker i) ≤ length out.old) }
    ensures { Put (mark_line row before checker i) out.old at out.new result }
{
    let value = (row >> i) % 2;
    if value == (before >> i) % 2 {
        return at;
    }
    put_change(value, checker, 1u32 << i, out, at)
}

// The lines of all marks. Answers the place behind them.
fn put_marks(row: u32, before: u32, checker: u32, out: &mut [u8], at: usize) -> usize
    requires { (checker < 64) × (at + length (marks_text row before checker) ≤ length out.old) }
    ensures { Put (marks_text row before checker) out.old at out.new result }
{
    let mut next = at;
    for i in 0..6 {
        next = put_mark(row, before, checker, i, out, next);
    }
    next
}

// The same, quick where the rows are the same: then there is no line.
pub fn put_checker(row: u32, before: u32, checker: u32, out: &mut [u8], at: usize) -> usize
    requires { (checker < 64) × (at + length (marks_text row before checker) ≤ length out.old) }
    ensures { Put (marks_text row before checker) out.old at out.new result }
{
    if row == before {
        return at;
    }
    put_marks(row, before, checker, out, at)
}
