// The check of the frames, and all that is written of it.
ghost use Rattle.std.specs.Prelude.{◌≡◌, ◌≤◌, ◌*◌, length};
ghost use Rattle.trace.specs.Traces.{frames};

use marks_args::Settings;
use marks_table::{print_failures, print_rows, print_totals};
use marks_words::print_head;
use record::full_check;
use std::io;

// A trace with a row and a word for each of its cycles.
fn print_checked(
    rt: &impl Print,
    s: Settings,
    trace: &[u32],
    rows: &mut [u32],
    words: &mut [u64],
) -> io::Result<()>
    requires { (length rows.old ≡ frames trace.now) × (length words.old ≡ frames trace.now) }
{
    let config = s.config;
    // The checker is accepted, and the rows and words are as many as the frames: nothing is refused.
    let _ = full_check(config, trace, rows, words);
    print_head(rt, s)?;
    print_rows(rt, s, trace, rows, words)?;
    print_failures(rt, config, trace)?;
    print_totals(rt, rows)
}

// The first n frames, with as many rows and words.
fn print_part(
    rt: &impl Print,
    s: Settings,
    trace: &[u32],
    rows: &mut [u32],
    words: &mut [u64],
    n: usize,
) -> io::Result<()>
    requires { (8 * n ≤ length trace.now) × (n ≤ length rows.old) × (n ≤ length words.old) }
{
    let m = 8 * n;
    print_checked(rt, s, &trace[..m], &mut rows[..n], &mut words[..n])
}

fn print_arrays(
    rt: &impl Print,
    s: Settings,
    trace: &[u32; 524288],
    rows: &mut [u32; 65536],
    words: &mut [u64; 65536],
    n: usize,
) -> io::Result<()>
    requires { n ≤ 65536 }
{
    print_part(rt, s, trace, rows, words, n)
}

// The check of the first n frames. Of the arrays only their lengths count, so they are lent by their types, which is quicker to prove.
pub fn print_check(rt: &impl Print, s: Settings, trace: &[u32; 524288], n: usize) -> io::Result<()>
    requires { n ≤ 65536 }
{
    let mut rows = [0u32; 65536];
    let mut words = [0u64; 65536];
    print_arrays(rt, s, trace, &mut rows, &mut words, n)
}
