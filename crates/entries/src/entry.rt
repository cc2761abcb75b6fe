// Entries of the list: cycle, mark, start.
ghost use Rattle.std.specs.Prelude.{[], ◌∷◌, ℕ, ◌+◌, ◌*◌, ◌≤◌, ◌<◌, T, length};
ghost use Rattle.bits.specs.Bits.{bit};
ghost use Rattle.listed.specs.Lists.{entry};
ghost use Rattle.entries.specs.Entries.{attempt_entries, window_entries, Stored};

// One entry. Answers where the next one goes.
pub fn write_entry(t: usize, mark: u32, start: usize, list: &mut [u32], at: usize) -> usize
    requires { (t < 65536) × (start ≤ t) × (at + 3 ≤ length list.old) }
    ensures { Stored (entry t mark start ∷ []) list.old at list.new result }
{
    list[at] = t as u32;
    list[at + 1] = mark;
    list[at + 2] = start as u32;
    at + 3
}

// The entries of the attempts whose bits are set, the oldest first.
pub fn write_attempts(lost: u64, t: usize, list: &mut [u32], at: usize) -> usize
    requires { (t < 65536) × ((j : ℕ) → T (bit lost j) → j < t) × (at + 3 * length (attempt_entries lost t) ≤ length list.old) }
    ensures { Stored (attempt_entries lost t) list.old at list.new result }
{
    let mut rest = lost;
    let mut next = at;
    // It goes over the ones of a word, from the highest down, which is neither a range nor a slice.
    while rest != 0 {
        let j = 63 - u64::leading_zeros(rest);
        next = write_entry(t, 1, t - 1 - j as usize, list, next);
        rest -= 1u64 << j;
    }
    next
}

// The entries of a time check from `start`, by the marks 1 and 2, of which one is set.
pub fn write_window(marks: u32, start: usize, t: usize, list: &mut [u32], at: usize) -> usize
    requires { (0 < marks) × (marks < 4) × (t < 65536) × (start ≤ t) × (at + 3 * length (window_entries (bit marks 0) (bit marks 1) t start) ≤ length list.old) }
    ensures { Stored (window_entries (bit marks 0) (bit marks 1) t start) list.old at list.new result }
{
    if marks != 3 {
        return write_entry(t, marks, start, list, at);
    }
    let next = write_entry(t, 1, start, list, at);
    write_entry(t, 2, start, list, next)
}
