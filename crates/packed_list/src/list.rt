// The failure list's count and its refusal in one number.
ghost use Rattle.std.specs.Prelude.{◌/◌, ◌%◌};
ghost use Rattle.failures.specs.Answers.{ListAnswer};

use failures::failures;
use rules::Config;

// The failure list, three words for each entry. Answers 2^32 times the refusal and the number of entries. Refusals 1 to 4 and 8; refused: the list is as it
// was.
pub fn packed_failures(config: Config, trace: &[u32], list: &mut [u32]) -> u64
    ensures { ListAnswer config trace.now list.old list.new (result / 4294967296) (result % 4294967296) }
{
    match failures(config, trace, list) {
        Ok(count) => count as u64,
        Err(refusal) => 0x1_0000_0000 * refusal.number() as u64,
    }
}
