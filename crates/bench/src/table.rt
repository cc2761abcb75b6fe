// The loops over a lent table of configurations. They are not offered to the viewer, who calls `selvedgeon_bench`.
ghost use Rattle.std.specs.Prelude.{◌≡◌, ◌≤◌, length};
ghost use Rattle.bench.specs.Bench.{bad_number, answer_of, cycle_of_bad, Tested, Stepped, Steppable, BenchAnswer};

use bench_lengths::lengths_answer;
use one_checker::{step_one, test_one};
use rules::{Config, Refusal};

// A checker of a table, by its number, and why it is refused.
#[derive(Clone, Copy, Debug, PartialEq, Eq)]
pub struct BadChecker {
    pub checker: u8,
    pub refusal: Refusal,
}

impl BadChecker {
    // 256 times the refusal number plus the checker's, by which the C host knows it.
    pub fn number(self) -> u32
        ensures { result ≡ bad_number self }
    {
        256 * self.refusal.number() + self.checker as u32
    }
}

// One step of every checker of a table, which are all tested before the first is stepped. A refusal of the lengths names checker 0, any other the first bad
// checker; refused: words and rows are as they were.
pub fn bench(
    table: &[Config],
    frames: &[u32],
    words: &mut [u64],
    rows: &mut [u32],
) -> Result<(), BadChecker>
    ensures answer { BenchAnswer table.now frames.now words.old rows.old words.new rows.new (answer_of result) }
    ensures no_cycle { cycle_of_bad result ≡ 0 }
{
    match lengths_answer(table.len(), frames.len(), words.len(), rows.len()) {
        Ok(()) => {
            test_all(table, words)?;
            step_all(table, frames, words, rows);
            Ok(())
        }
        Err(refusal) => Err(BadChecker {
            checker: 0,
            refusal,
        }),
    }
}

// Refuses the first bad checker.
pub fn test_all(table: &[Config], words: &[u64]) -> Result<(), BadChecker>
    requires { (length words.now ≡ length table.now) × (length table.now ≤ 64) }
    ensures tested { Tested table.now words.now (answer_of result) }
    ensures no_cycle { cycle_of_bad result ≡ 0 }
{
    for (k, (config, word)) in table.iter().zip(words).enumerate() {
        match test_one(*config, *word) {
            Ok(()) => {}
            Err(refusal) => {
                return Err(BadChecker {
                    checker: k as u8,
                    refusal,
                });
            }
        }
    }
    Ok(())
}

// Steps every checker of a table that was tested. Four slices go by one index: three zips of them would be no plainer, and the document asks for the walk by index.
pub fn step_all(table: &[Config], frames: &[u32], words: &mut [u64], rows: &mut [u32])
    requires { Steppable table.now frames.now words.old rows.old }
    ensures { Stepped table.now frames.now words.old rows.old words.new rows.new }
{
    for k in 0..table.len() {
        step_one(table[k], frames, words, rows, k);
    }
}
