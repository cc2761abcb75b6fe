// What the programs write to standard output.
#![tactic(auto)]

use recheck::RecheckResult;
use rules::{Refusal, refusal_number};
use std::io;

pub fn text(rt: &impl Print, bytes: &[u8]) -> io::Result<()> {
    rt.write_all(bytes)
}

pub fn number(rt: &impl Print, n: u64) -> io::Result<()> {
    rt.print(n)
}

// Numbers, each after a space.
pub fn spaced_numbers<T: Copy + Into<u64>>(rt: &impl Print, values: &[T]) -> io::Result<()> {
    for value in values {
        let n: u64 = (*value).into();
        print!(rt; " {n}")?;
    }
    Ok(())
}

// A name and numbers on a line.
pub fn numbers<T: Copy + Into<u64>>(rt: &impl Print, name: &[u8], values: &[T]) -> io::Result<()> {
    text(rt, name)?;
    spaced_numbers(rt, values)?;
    text(rt, b"\n")
}

// A list's refusal, how many entries it has, and the lent slice.
pub fn list(rt: &impl Print, r: Result<usize, Refusal>, values: &[u32]) -> io::Result<()> {
    let count = r.unwrap_or(0);
    print!(rt; "refusal {} count {count}", refusal_number(&r))?;
    numbers(rt, b" list", values)
}

// A recheck's refusal, with 7 the cycle whose word is impossible, its end, and the changes of the marks 1, 2, 4, 8, 16 and 32.
pub fn answer(rt: &impl Print, r: RecheckResult) -> io::Result<()> {
    print!(rt; "refusal {}", r.refusal)?;
    if r.refusal == 7 {
        print!(rt; " cycle {}", r.cycle)?;
    }
    print!(rt; " end {} changes", r.end)?;
    for change in r.changes {
        print!(rt; " {change}")?;
    }
    text(rt, b"\n")
}
