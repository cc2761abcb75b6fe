// Decimal numbers.
ghost use Rattle.std.specs.Prelude.{◌+◌, ◌≤◌, ◌<◌, length};
ghost use Rattle.waves.specs.Text.{decimal};
ghost use Rattle.waves_put.specs.Put.{Put, pair};

// A number of one or two digits. Answers the place behind it.
pub fn put_small(n: u32, out: &mut [u8], at: usize) -> usize
    requires { (n < 100) × (at + length (decimal n) ≤ length out.old) }
    ensures { Put (decimal n) out.old at out.new result }
{
    if n < 10 {
        out[at] = (48 + n) as u8;
        return at + 1;
    }
    put_pair(n, out, at)
}

// Two digits, the first of which may be 0. Answers the place behind them.
fn put_pair(n: u32, out: &mut [u8], at: usize) -> usize
    requires { (n < 100) × (at + 2 ≤ length out.old) }
    ensures { Put (pair n) out.old at out.new result }
{
    out[at] = (48 + n / 10) as u8;
    out[at + 1] = (48 + n % 10) as u8;
    at + 2
}

// A number of at most six digits, two digits at a time. Answers the place behind it.
pub fn put_number(n: u32, out: &mut [u8], at: usize) -> usize
    requires { (n < 1000000) × (at + length (decimal n) ≤ length out.old) }
    ensures { Put (decimal n) out.old at out.new result }
{
    if n < 100 {
        return put_small(n, out, at);
    }
    if n < 10000 {
        let hundreds = put_small(n / 100, out, at);
        return put_pair(n % 100, out, hundreds);
    }
    let highest = put_small(n / 10000, out, at);
    let hundreds = put_pair(n / 100 % 100, out, highest);
    put_pair(n % 100, out, hundreds)
}
