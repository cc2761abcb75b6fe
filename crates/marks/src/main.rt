// Reads a VCD dump on standard input, checks what it samples with the checker that its arguments ask for, and writes the marks of every cycle.
#![tactic(auto)]

mod checking;

use checking::print_check;
use config::config_refusal;
use marks_args::{Keyword, Settings, has_argument, read_settings};
use marks_dump::{count_frames, read_dump, take_as_one};
use marks_words::{print_config_refusal, print_fault, print_refusal, print_usage};
use std::io;
use std::io::Read;

// The bits of the reset word whose wires are not connected: bit 0 is reset_n, bit 1 enable. Kinds 0 to 6 do not read enable.
fn taken_bits(s: Settings) -> u32 {
    let reset = if s.is_given(Keyword::Reset) { 0 } else { 1 };
    let enable = if s.is_given(Keyword::Enable) { 0 } else { 2 };
    reset | enable
}

// The dump is read, and where it is not refused its frames are checked.
fn run_with(
    rt: &impl Print,
    input: &mut impl Read,
    s: Settings,
    wires: &[u64; 258],
    frames: &mut [u32; 524288],
) -> io::Result<()> {
    let Ok(loaded) = read_dump(input, wires, frames) else {
        return rt.println("standard input cannot be read");
    };
    if loaded.refusal != 0 {
        return print_refusal(rt, loaded.refusal, loaded.line, loaded.identifier);
    }
    let n = count_frames(loaded.frames);
    take_as_one(frames, taken_bits(s), n);
    print_check(rt, s, frames, n)
}

// With as many frames as a trace can have.
fn run(rt: &impl Print, input: &mut impl Read, s: Settings, wires: &[u64; 258]) -> io::Result<()> {
    let mut frames = [0u32; 524288];
    run_with(rt, input, s, wires, &mut frames)
}

fn main(rt: HostRuntime) -> io::Result<()> {
    if !has_argument(&rt, 1) {
        return print_usage(&rt);
    }
    let mut wires = [0u64; 258];
    let s = match read_settings(&rt, &mut wires) {
        Ok(s) => s,
        Err(misuse) => return print_fault(&rt, misuse),
    };
    if let Err(refusal) = config_refusal(s.config) {
        return print_config_refusal(&rt, refusal);
    }
    run(&rt, &mut rt.stdin(), s, &wires)
}
