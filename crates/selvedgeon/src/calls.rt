// The calls on a whole trace, for the C host.
ghost use Rattle.std.specs.Prelude.{◌/◌, ◌%◌};
ghost use Rattle.record.specs.Records.{CheckAnswer};
ghost use Rattle.failures.specs.Answers.{ListAnswer};
ghost use Rattle.lent_totals.specs.Answers.{HostTotals};
ghost use Rattle.lent_changes.specs.Answers.{HostRecheck};
ghost use Rattle.edited.specs.Back.{BackAnswer};
ghost use Rattle.numbered.specs.Numbered.{config_of};

use edited::{BothResults, edit_and_take_back};
use lent_changes::recheck_into;
use lent_totals::totals_into;
use numbered::config_of;
use packed_list::packed_failures;
use record::full_check;
use rules::refusal_number;

// The full check: fills N rows and N open words. Answers the refusal number or 0; refused: both are as they were. Refusals 1 to 5.
#[unsafe(no_mangle)]
pub extern "C" fn selvedgeon_check(
    kind: u8,
    n: u32,
    p_left: u8,
    p_right: u8,
    q_left: u8,
    q_right: u8,
    r_left: u8,
    r_right: u8,
    min: u32,
    value: u32,
    severity: u8,
    trace: &[u32],
    rows: &mut [u32],
    words: &mut [u64],
) -> u32
    ensures { CheckAnswer (config_of kind n p_left p_right q_left q_right r_left r_right min value severity) trace.now rows.old words.old rows.new words.new result }
{
    let config = config_of(
        kind, n, p_left, p_right, q_left, q_right, r_left, r_right, min, value, severity,
    );
    refusal_number(&full_check(config, trace, rows, words))
}

// The recheck after an edit of cycles a to b-1. Answers 2^32 times the refusal and, where that is 7, the lowest cycle whose word is impossible; not refused, the
// lent numbers become the cycle where it ended and the change of each mark. Refusals 1 to 7, 5 also where not one number more than there are marks is lent;
// refused: all is as it was.
#[unsafe(no_mangle)]
pub extern "C" fn selvedgeon_recheck(
    kind: u8,
    n: u32,
    p_left: u8,
    p_right: u8,
    q_left: u8,
    q_right: u8,
    r_left: u8,
    r_right: u8,
    min: u32,
    value: u32,
    severity: u8,
    trace: &[u32],
    rows: &mut [u32],
    words: &mut [u64],
    a: u64,
    b: u64,
    answer: &mut [i32],
) -> u64
    ensures { HostRecheck (config_of kind n p_left p_right q_left q_right r_left r_right min value severity) trace.now rows.old words.old a b answer.old rows.new words.new answer.new (result / 4294967296) (result % 4294967296) }
{
    let config = config_of(
        kind, n, p_left, p_right, q_left, q_right, r_left, r_right, min, value, severity,
    );
    recheck_into(config, trace, rows, words, a, b, answer)
}

// An edit of cycles a to b-1 made and taken back, with a recheck after each: what it would change, with nothing changed. Answers both rechecks. Refusals 1 to 7, 5
// also where the samples are not those of b-a cycles; where the edit is refused, both answers are the same, and all is as it was. The trace and the samples are
// in the end as they were, and so are the rows and words of the trace's true record.
#[unsafe(no_mangle)]
pub extern "C" fn selvedgeon_edit_and_take_back(
    kind: u8,
    n: u32,
    p_left: u8,
    p_right: u8,
    q_left: u8,
    q_right: u8,
    r_left: u8,
    r_right: u8,
    min: u32,
    value: u32,
    severity: u8,
    trace: &mut [u32],
    rows: &mut [u32],
    words: &mut [u64],
    a: u64,
    b: u64,
    samples: &mut [u32],
) -> BothResults
    ensures { BackAnswer (config_of kind n p_left p_right q_left q_right r_left r_right min value severity) a b samples.old samples.new (record { trace = trace.old; rows = rows.old; words = words.old }) (record { trace = trace.new; rows = rows.new; words = words.new }) result.edit result.back }
{
    let config = config_of(
        kind, n, p_left, p_right, q_left, q_right, r_left, r_right, min, value, severity,
    );
    edit_and_take_back(config, trace, rows, words, a as usize, b as usize, samples)
}

// How many rows have each mark, in as many lent numbers as there are marks. Answers the refusal number or 0: 5 for more than 65,536 rows, or where another
// number of numbers is lent; refused: they are as they were.
#[unsafe(no_mangle)]
pub extern "C" fn selvedgeon_totals(rows: &[u32], counts: &mut [u32]) -> u32
    ensures { HostTotals rows.now counts.old counts.new result }
{
    totals_into(rows, counts)
}

// The failure list, three words for each entry. Answers 2^32 times the refusal and the number of entries. Refusals 1 to 4 and 8; refused: the list is as it
// was.
#[unsafe(no_mangle)]
pub extern "C" fn selvedgeon_failures(
    kind: u8,
    n: u32,
    p_left: u8,
    p_right: u8,
    q_left: u8,
    q_right: u8,
    r_left: u8,
    r_right: u8,
    min: u32,
    value: u32,
    severity: u8,
    trace: &[u32],
    list: &mut [u32],
) -> u64
    ensures { ListAnswer (config_of kind n p_left p_right q_left q_right r_left r_right min value severity) trace.now list.old list.new (result / 4294967296) (result % 4294967296) }
{
    let config = config_of(
        kind, n, p_left, p_right, q_left, q_right, r_left, r_right, min, value, severity,
    );
    packed_failures(config, trace, list)
}
