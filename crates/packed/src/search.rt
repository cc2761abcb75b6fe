// The first failure in one number.
ghost use Rattle.std.specs.Prelude.{◌/◌, ◌%◌, eqb};
ghost use Rattle.first_failure.specs.Search.{SearchAnswer};

use first_failure::first_failure;

// The first failing cycle over the rows of several checkers. Answers 2^32 times the refusal, 0 for none, or 2^31 + 2^16 times the checker + the cycle.
// Refusals 9, 4 and 5.
pub fn packed_first_failure(checkers: u64, cycles: u64, rows: &[u32]) -> u64
    ensures { SearchAnswer checkers cycles rows.now (result / 4294967296) (eqb (result / 2147483648 % 2) 1) (result / 65536 % 32768) (result % 65536) }
{
    match first_failure(checkers as usize, cycles as usize, rows) {
        Err(refusal) => 0x1_0000_0000 * refusal.number() as u64,
        Ok(None) => 0,
        Ok(Some(found)) => 0x8000_0000 + 0x1_0000 * found.checker as u64 + found.cycle as u64,
    }
}
