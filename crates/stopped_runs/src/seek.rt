// Runs behind a failure that stop where 2^63 is the kept word.
ghost use Rattle.std.specs.Prelude.{true, ◌≡◌, ◌≤◌, length};
ghost use Rattle.trace.specs.Stretches.{Stayed};

use rules::STOPPED;
use trace::{Reached, Stretch};

// Stores row 0 and word 2^63 up to the first entry where that is the kept word.
pub fn seek(rows: &mut [u32], words: &mut [u64], s: Stretch) -> Reached
    requires { (s.at ≤ s.to) × (s.to ≤ length rows.old) × (s.to ≤ length words.old) × (s.to ≤ 65536) × (s.stops ≡ true) }
    ensures { Stayed s rows.old words.old rows.new words.new result }
{
    let to = s.to;
    let word = STOPPED;
    let mut kept = s.kept;
    for at in s.at..to {
        if kept == STOPPED {
            return Reached { at, word, kept };
        }
        kept = words[at];
        rows[at] = 0;
        words[at] = STOPPED;
    }
    Reached { at: to, word, kept }
}
