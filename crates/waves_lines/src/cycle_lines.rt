// The lines of a cycle.
ghost use Rattle.std.specs.Prelude.{◌≡◌, ◌++◌, ◌+◌, ◌*◌, ◌≤◌, ◌<◌, length};
ghost use Rattle.dump.specs.Text.{bytes};
ghost use Rattle.waves.specs.Text.{text, decimal};
ghost use Rattle.waves.specs.Waves.{cycle_lines};
ghost use Rattle.waves.specs.Answer.{only_marks};
ghost use Rattle.waves_put.specs.Put.{Put};
ghost use Rattle.waves_lines.specs.Lines.{row_before, Given};

use crate::change::put_checker;
use waves_put::{put_number, put_text};

// `#6`, the end of its line and what follows. Answers the place behind it.
fn put_stamp(n: u32, follows: &[u8], out: &mut [u8], at: usize) -> usize
    requires { (n < 1000000) × (at + length (bytes "#" ++ decimal n ++ follows.now) ≤ length out.old) }
    ensures { Put (bytes "#" ++ decimal n ++ follows.now) out.old at out.new result }
{
    out[at] = b'#';
    let end = put_number(n, out, at + 1);
    put_text(follows, out, end)
}

// The row before that of a place, in cycle t. In cycle 0 all wires change, as if each had had the other value.
fn row_before(rows: &[u32], place: usize, t: usize) -> u32
    requires { (place < length rows.now) × (t ≤ place) }
    ensures { result ≡ row_before rows.now place t }
{
    if t == 0 {
        return 63 - rows[place] % 64;
    }
    rows[place - 1]
}

// Cycle t of all checkers. Answers the place behind its lines.
pub fn put_cycle(
    checkers: usize,
    cycles: usize,
    t: usize,
    rows: &[u32],
    out: &mut [u8],
    at: usize,
) -> usize
    requires { Given checkers cycles rows.now × (t < cycles) × (at + length (text (cycle_lines checkers cycles rows.now t)) ≤ length out.old) }
    ensures { Put (text (cycle_lines checkers cycles rows.now t)) out.old at out.new result }
{
    let mut next = put_stamp(2 * t as u32, b"\n0clk\n", out, at);
    for k in 0..checkers {
        let place = k * cycles + t;
        next = put_checker(rows[place], row_before(rows, place, t), k as u32, out, next);
    }
    put_stamp(2 * t as u32 + 1, b"\n1clk\n", out, next)
}
