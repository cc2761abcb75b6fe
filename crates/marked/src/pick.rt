// The marked rows are found by words of 32 bits, one for each row, so that no branch depends on a row without a mark.
ghost use Rattle.std.specs.Prelude.{◌≡◌, ◌++◌, map, ℕ, ◌+◌, ◌-◌, ◌^◌, ◌≤◌, ◌<◌, length, take};
ghost use Rattle.bits.specs.Bits.{number};
ghost use Rattle.marked.specs.Picks.{block_cycles, marked, places, Picks};

// The most cycles of a block, a multiple of 32.
pub const BLOCK: usize = 256;

// Stores the rows with mark 1 or 2, in ascending order, and answers how many they are.
pub fn pick_marked(rows: &[u32; BLOCK], cycles: usize, picked: &mut [usize; BLOCK]) -> usize
    requires { (cycles ≤ block_cycles) × (length picked.old ≡ block_cycles) }
    ensures { Picks rows.now cycles picked.new result }
{
    let mut next: usize = 0;
    for first in (0..cycles).step_by(32) {
        let width = (cycles - first).min(32);
        let marks = marks_of(rows, first) >> (32 - width);
        next = store_places(marks, first, width, picked, next);
    }
    next
}

// Bit 31-i is 1 where row first+i has mark 1 or 2. The loop's bounds are constants, so that the compiler can take several rows at once.
fn marks_of(rows: &[u32; BLOCK], first: usize) -> u32
    requires { first + 32 ≤ block_cycles }
    ensures { result ≡ number 32 (λ (i : ℕ). marked rows.now (first + (31 - i))) }
{
    let mut marks: u32 = 0;
    for i in 0..32 {
        if rows[first + (31 - i)] % 4 != 0 {
            marks += 1u32 << i;
        }
    }
    marks
}

// Stores the places of the ones in so many bits, counted from `first` on and from the highest bit on. Answers where the next one goes.
fn store_places(
    marks: u32,
    first: usize,
    width: usize,
    picked: &mut [usize; BLOCK],
    at: usize,
) -> usize
    requires { (width ≤ 32) × (marks < 2 ^ width) × (first + width ≤ block_cycles) × (at ≤ first) × (length picked.old ≡ block_cycles) }
    ensures { (result ≡ at + length (places width marks)) × (length picked.new ≡ block_cycles) × (take result picked.new ≡ take at picked.old ++ map (λ (s : ℕ). first + s) (places width marks)) }
{
    let mut rest = marks;
    let mut next = at;
    // It goes over the ones of a word, which is neither a range nor a slice.
    while rest != 0 {
        let j = 31 - u32::leading_zeros(rest);
        picked[next] = first + width - 1 - j as usize;
        next += 1;
        rest -= 1u32 << j;
    }
    next
}
