// The blocks of a recheck.
ghost use Rattle.std.specs.Prelude.{◌≤◌, ◌<◌};

// The cycles of the first block.
const FIRST_BLOCK: usize = 32;

// Where the block that starts at cycle t ends, in a run from cycle a on over a record of n cycles. A block is as long as all before it, so that what is done
// once for a block costs little in a cycle, and a run that ends soon has not looked far ahead. No block goes beyond b, from where on a run can stop.
pub fn block_end(a: usize, t: usize, b: usize, n: usize) -> usize
    requires { (a ≤ t) × (t < n) × (b ≤ n) × (n ≤ 65536) }
    ensures { (t < result) × (result ≤ n) × (t < b → result ≤ b) }
{
    let length = t - a + FIRST_BLOCK;
    let end = if t < b { b } else { n };
    t + length.min(end - t)
}
