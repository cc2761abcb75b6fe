// The marks of two stretches of rows, side by side.
ghost use Rattle.std.specs.Prelude.{◌≡◌, ℕ, ◌+◌, ◌*◌, ◌/◌, ◌%◌, ◌≤◌, ◌<◌, ◌^◌, length, get_or};
ghost use Rattle.bits.specs.Bits.{to_bit, bit};
ghost use Rattle.rules.specs.Rules.{marks};
ghost use Rattle.halves.specs.Rows.{marks_in};

use rules::MARKS;
use tally::Tally;

// Sums over two stretches of rows side by side, the one in the low 16 bits of a word and the other in the high 16: so a mask and a sum for each mark take two
// rows at once. A sum takes the mark's bit as it stands in the rows: each half of entry i is 2^i times a count of mark i, and the shift is made once for all
// rows. With 1,024 rows in a stretch no half overflows, while there are at most 6 marks.
#[derive(Clone, Copy)]
struct Paired {
    sums: [u32; MARKS],
}

impl Paired {
    // The mark's bit added for each mark that a row has: `low` is a row of the one stretch, `high` of the other.
    fn with(self, low: u32, high: u32) -> Paired
        requires { (i : ℕ) → i < marks → get_or self.sums i 0 + 65537 * 2 ^ i < 2 ^ 32 }
        ensures { (i : ℕ) → i < marks → get_or result.sums i 0 ≡ get_or self.sums i 0 + (to_bit (bit high i) * 65536 + to_bit (bit low i)) * 2 ^ i }
    {
        let both = high % 65536 * 65536 + low % 65536;
        let mut sums = self.sums;
        // The index is the mark's bit too.
        for i in 0..MARKS {
            sums[i] += both & (65537 << i);
        }
        Paired { sums }
    }

    // Each sum without its weight, both halves of it added to the tally.
    fn onto(self, tally: Tally) -> Tally
        requires { (i : ℕ) → i < marks → get_or tally.counts i 0 + (get_or self.sums i 0 / 2 ^ i % 65536 + get_or self.sums i 0 / 2 ^ i / 65536) < 2 ^ 32 }
        ensures { (i : ℕ) → i < marks → get_or result.counts i 0 ≡ get_or tally.counts i 0 + (get_or self.sums i 0 / 2 ^ i % 65536 + get_or self.sums i 0 / 2 ^ i / 65536) }
    {
        let sums = self.sums;
        let mut counts = tally.counts;
        // The index is the mark's bit too, and one for both arrays.
        for i in 0..MARKS {
            let both = sums[i] >> i;
            counts[i] += both % 65536 + both / 65536;
        }
        Tally { counts }
    }
}

// The tally with the marks of two stretches of `half` rows added, which follow each other from `from` on.
pub fn with_halves(rows: &[u32], from: usize, half: usize, tally: Tally) -> Tally
    requires half_bound { (half ≤ 1024) × (from + half + half ≤ length rows.now) }
    requires by_index { (i : ℕ) → i < marks → get_or tally.counts i 0 ≤ 65536 }
    ensures { (i : ℕ) → i < marks → get_or result.counts i 0 ≡ get_or tally.counts i 0 + marks_in rows.now i from (from + half + half) }
{
    let middle = from + half;
    let mut paired = Paired { sums: [0; MARKS] };
    // Both halves are in one slice, so that an index into each is plainer than a `zip` of two parts.
    for k in 0..half {
        paired = paired.with(rows[from + k], rows[middle + k]);
    }
    paired.onto(tally)
}

// Half of the rows that are left, and at most 1,024.
pub fn half_of(left: usize) -> usize
    ensures { (result ≤ 1024) × (result + result ≤ left) × (2 ≤ left → 1 ≤ result) }
{
    (left / 2).min(1024)
}
