// Counts of the marks.
ghost use Rattle.std.specs.Prelude.{◌≡◌, ℕ, ◌+◌, ◌≤◌, ◌<◌, ◌^◌, get_or};
ghost use Rattle.bits.specs.Bits.{to_bit, bit};
ghost use Rattle.rules.specs.Rules.{marks};

use rules::MARKS;

// How often each mark was met: entry i counts the mark 2^i.
#[derive(Clone, Copy, Debug, PartialEq, Eq)]
pub struct Tally {
    pub counts: [u32; MARKS],
}

impl Tally {
    // The same number for each mark.
    pub fn all(count: u32) -> Tally
        ensures { (i : ℕ) → i < marks → get_or result.counts i 0 ≡ count }
    {
        Tally {
            counts: [count; MARKS],
        }
    }

    // One more for each mark that the row has.
    pub fn with(self, row: u32) -> Tally
        requires { (i : ℕ) → i < marks → get_or self.counts i 0 + 1 < 2 ^ 32 }
        ensures { (i : ℕ) → i < marks → get_or result.counts i 0 ≡ get_or self.counts i 0 + to_bit (bit row i) }
    {
        let mut counts = self.counts;
        // The index is the mark's bit too.
        for i in 0..MARKS {
            counts[i] += (row >> i) % 2;
        }
        Tally { counts }
    }

    // The counts after some rows were written anew: `old` are the counts of these rows before, `new` those after. The new ones are added first, so that no count
    // falls below 0 on the way.
    pub fn moved(self, old: Tally, new: Tally) -> Tally
        requires { (i : ℕ) → i < marks → (get_or old.counts i 0 ≤ get_or self.counts i 0 + get_or new.counts i 0) × (get_or self.counts i 0 + get_or new.counts i 0 < 2 ^ 32) }
        ensures { (i : ℕ) → i < marks → get_or result.counts i 0 + get_or old.counts i 0 ≡ get_or self.counts i 0 + get_or new.counts i 0 }
    {
        let lost = old.counts;
        let gained = new.counts;
        let mut counts = self.counts;
        // One index for three arrays is plainer than two `zip`s.
        for i in 0..MARKS {
            counts[i] = counts[i] + gained[i] - lost[i];
        }
        Tally { counts }
    }
}
