// The calls that answer one number, for the C host.
ghost use Rattle.std.specs.Prelude.{◌/◌, ◌%◌, eqb};
ghost use Rattle.checker.specs.Calls.{CountAnswer};
ghost use Rattle.first_failure.specs.Search.{SearchAnswer};
ghost use Rattle.numbered.specs.Numbered.{config_of};

use numbered::config_of;
use packed::{packed_first_failure, packed_open_count};

// How many checks an open word says are unfinished. Answers 256 times the refusal and the count. Refusals 1, 2, 3 and 7.
#[unsafe(no_mangle)]
pub extern "C" fn selvedgeon_open_count(
    kind: u8,
    n: u32,
    p_left: u8,
    p_right: u8,
    q_left: u8,
    q_right: u8,
    r_left: u8,
    r_right: u8,
    min: u32,
    value: u32,
    severity: u8,
    word: u64,
) -> u32
    ensures { CountAnswer (config_of kind n p_left p_right q_left q_right r_left r_right min value severity) word (result / 256) (result % 256) }
{
    let config = config_of(
        kind, n, p_left, p_right, q_left, q_right, r_left, r_right, min, value, severity,
    );
    packed_open_count(config, word)
}

// The first failing cycle over the rows of several checkers. Answers 2^32 times the refusal, 0 for none, or 2^31 + 2^16 times the checker + the cycle.
// Refusals 9, 4 and 5.
#[unsafe(no_mangle)]
pub extern "C" fn selvedgeon_first_failure(checkers: u64, cycles: u64, rows: &[u32]) -> u64
    ensures { SearchAnswer checkers cycles rows.now (result / 4294967296) (eqb (result / 2147483648 % 2) 1) (result / 65536 % 32768) (result % 65536) }
{
    packed_first_failure(checkers, cycles, rows)
}
