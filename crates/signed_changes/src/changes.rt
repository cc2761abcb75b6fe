// A change from a count that is 65,536 too high.
ghost use Rattle.std.specs.Prelude.{◌≡◌, ℕ, ◌≤◌, ◌<◌, pos, length, get_or};
ghost use Rattle.std.proofs.Math.IntN.{sub_ℕ};
ghost use Rattle.rules.specs.Rules.{marks};

use rules::MARKS;
use tally::Tally;

// The changes of a run's tally.
pub fn changes_of(tally: Tally) -> [i32; MARKS]
    requires { (i : ℕ) → i < marks → get_or tally.counts i 0 ≤ 131072 }
    ensures { (length result ≡ marks) × ((i : ℕ) → i < marks → get_or result i (pos 0) ≡ sub_ℕ (get_or tally.counts i 0) 65536) }
{
    // `tally.counts.map(signed)` was tried: that each call meets what `signed` requires was not proved.
    let counts = tally.counts;
    let mut changes = [0i32; MARKS];
    for i in 0..MARKS {
        changes[i] = signed(counts[i]);
    }
    changes
}

// 65,536 less than the count.
fn signed(count: u32) -> i32
    requires { count ≤ 131072 }
    ensures { result ≡ sub_ℕ count 65536 }
{
    count as i32 - 65536
}
