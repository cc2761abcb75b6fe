// Names of wires.
ghost use Rattle.std.specs.Prelude.{◌+◌, ◌≤◌, ◌<◌, length};
ghost use Rattle.waves.specs.Waves.{name_of};
ghost use Rattle.waves_put.specs.Put.{Put};

use waves_put::put_small;

// `k3m32`, of checker 3 and mark 32. Answers the place behind it.
pub fn put_name(checker: u32, mark: u32, out: &mut [u8], at: usize) -> usize
    requires { (checker < 100) × (mark < 100) × (at + length (name_of checker mark) ≤ length out.old) }
    ensures { Put (name_of checker mark) out.old at out.new result }
{
    out[at] = b'k';
    let middle = put_small(checker, out, at + 1);
    out[middle] = b'm';
    put_small(mark, out, middle + 1)
}
