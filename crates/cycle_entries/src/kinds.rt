// The entries of a cycle, by its kind, from the open word before it.
ghost use Rattle.std.specs.Prelude.{◌≡◌, cond, ◌+◌, ◌-◌, ◌*◌, ◌%◌, ◌≤◌, ◌<◌, eqb, length};
ghost use Rattle.entries.specs.Entries.{Stored};
ghost use Rattle.cycle_entries.specs.Steps.{step_entries, Ready};

use super::lost::lost_attempts;
use entries::{write_attempts, write_entry, write_window};
use rules::{Config, Family, Frame, REFERENCE_UNIT};

// How many entries a cycle whose row has mark 1 or 2 has.
pub fn entries_in(c: Config, word: u64, frame: Frame, row: u32, t: usize) -> usize
    requires { (Ready c word frame row t) × (0 < row % 4) }
    ensures { (result ≡ length (step_entries c word frame t)) × (result ≤ 64) }
{
    let marks = row % 4;
    match c.family() {
        Family::Sequence => u64::count_ones(lost_attempts(c, word, frame)) as usize,
        Family::Time | Family::Transition | Family::Value | Family::Stability => {
            (marks % 2 + marks / 2) as usize
        }
    }
}

// Writes the entries of a cycle whose row has mark 1 or 2 from `at` on, and answers where the next one goes.
pub fn write_entries(
    c: Config,
    word: u64,
    frame: Frame,
    row: u32,
    t: usize,
    list: &mut [u32],
    at: usize,
) -> usize
    requires { (Ready c word frame row t) × (0 < row % 4) × (at + 3 * length (step_entries c word frame t) ≤ length list.old) }
    ensures { Stored (step_entries c word frame t) list.old at list.new result }
{
    match c.family() {
        Family::Sequence => write_attempts(lost_attempts(c, word, frame), t, list, at),
        Family::Time => write_window(row % 4, t + word as usize - c.n as usize - 1, t, list, at),
        Family::Transition => write_entry(t, 1, t - 1, list, at),
        Family::Value => {
            let start = trigger_cycle(t, word as usize, c.n as usize);
            write_entry(t, 1, start, list, at)
        }
        Family::Stability => {
            let left = word % REFERENCE_UNIT;
            let start = trigger_cycle(t, left as usize, c.n as usize);
            write_entry(t, 1, start, list, at)
        }
    }
}

// The start of the window that cycle t is in, with so many cycles left to its end, t included: with none left it was opened in t.
fn trigger_cycle(t: usize, left: usize, max: usize) -> usize
    requires { (t < 65536) × (left ≤ max) × (max < 65536) × (0 < left → max < left + t) }
    ensures { result ≡ cond (eqb left 0) t (t + left - max - 1) }
{
    if left == 0 { t } else { t + left - max - 1 }
}
