// Runs behind a failure that do not stop.
ghost use Rattle.std.specs.Prelude.{false, ◌≡◌, ◌≤◌, length};
ghost use Rattle.trace.specs.Stretches.{Stayed};

use rules::STOPPED;
use trace::{Reached, Stretch, kept_at_end};

// Stores row 0 and word 2^63 to the end of a stretch: first the rows and then the words, each of which the compiler makes a block operation of.
pub fn fill(rows: &mut [u32], words: &mut [u64], s: Stretch) -> Reached
    requires { (s.at ≤ s.to) × (s.to ≤ length rows.old) × (s.to ≤ length words.old) × (s.to ≤ 65536) × (s.stops ≡ false) }
    ensures { Stayed s rows.old words.old rows.new words.new result }
{
    let at = s.at;
    let to = s.to;
    let last = kept_at_end(words, at, to, s.kept);
    rows[at..to].fill(0);
    words[at..to].fill(STOPPED);
    Reached {
        at: to,
        word: STOPPED,
        kept: last,
    }
}
