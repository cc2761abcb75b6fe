// How the program is used, and what is wrong with its arguments.
use marks_args::{Fault, Misuse, read_argument};
use std::env::Env;
use std::io;

const USAGE: &str = "usage: marks KIND N clock CODE INDEX [OPTION ...] < DUMP
Checks what a VCD dump has at the rising edges of a clock, and writes the marks of every cycle.
  KIND N              the checker: 0, 1, 2 a sequence of N events on p
                               3, 4, 5 a test q in the N cycles after a start p
                               6 the next state r after a start state q of the state p; N is 0
                               7, 8 the value p until N cycles after a trigger q
  clock CODE INDEX    the clock: its identifier code in the dump, and the index of its wire
  reset CODE INDEX    reset_n; taken as 1 where it is not given
  enable CODE INDEX   enable of kinds 7 and 8; taken as 1 where it is not given
  p CODE LEFT RIGHT   the wires LEFT to RIGHT of that code become the port P; likewise q and r
  min M               min of kinds 7 and 8
  value V             the value that kind 7 expects
  severity S          0 goes on after a failure, 1 stops
";

pub fn print_usage(rt: &impl Print) -> io::Result<()> {
    rt.print(USAGE)
}

// The argument as it stands; one of more than 4,096 bytes is left out.
fn print_argument(rt: &(impl Print + Env), i: usize) -> io::Result<()> {
    let mut space = [0u8; 4096];
    let n = read_argument(rt, i, &mut space).unwrap_or(0);
    rt.write_all(&space[..n])
}

pub fn print_fault(rt: &(impl Print + Env), misuse: Misuse) -> io::Result<()> {
    let Misuse { fault, at } = misuse;
    match fault {
        Fault::Missing => println!(rt; "not understood: {fault} {at}"),
        Fault::NoClock => println!(rt; "not understood: {fault}"),
        _ => {
            print!(rt; "not understood: word {at}, ")?;
            print_argument(rt, at)?;
            println!(rt; ": {fault}")
        }
    }
}
