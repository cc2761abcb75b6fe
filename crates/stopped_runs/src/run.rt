// Runs of a fatal checker behind its failure.
ghost use Rattle.std.specs.Prelude.{◌≤◌, length};
ghost use Rattle.trace.specs.Stretches.{Stayed};

use super::fill::fill;
use super::seek::seek;
use trace::{Reached, Stretch};

// Stores row 0 and word 2^63 to the end of a stretch, or up to the first entry where 2^63 is the kept word if it stops there. No frame is looked at.
pub fn stay(rows: &mut [u32], words: &mut [u64], s: Stretch) -> Reached
    requires { (s.at ≤ s.to) × (s.to ≤ length rows.old) × (s.to ≤ length words.old) × (s.to ≤ 65536) }
    ensures { Stayed s rows.old words.old rows.new words.new result }
{
    if s.stops {
        seek(rows, words, s)
    } else {
        fill(rows, words, s)
    }
}
