// One step on a word in lent bytes.
ghost use Rattle.byte_step.specs.Step.{answer_of, ByteStep};

use checker::Monitor;
use config::config_refusal;
use rules::{Config, Frame, Refusal};
use word_bytes::{load, store};

// One step of the checker on the frame. The open word is in the eight lent bytes, least significant first: the next word is written there. Answers 256 times
// the refusal number plus the row. Refusals 1, 2 and 3, then 5 for a slice that is not 8 bytes long, then 7; refused: the bytes are as they were.
pub fn step_bytes(config: Config, frame: Frame, word: &mut [u8]) -> u32
    ensures { ByteStep config frame word.old word.new result }
{
    match row_of_step(config, frame, word) {
        Ok(row) => row,
        Err(refusal) => 256 * refusal.number(),
    }
}

// The row of the step, whose next word is written.
fn row_of_step(config: Config, frame: Frame, word: &mut [u8]) -> Result<u32, Refusal>
    ensures { ByteStep config frame word.old word.new (answer_of result) }
{
    config_refusal(config)?;
    if word.len() != 8 {
        return Err(Refusal::SliceLength);
    }
    let monitor = Monitor {
        config,
        word: load(word),
    };
    let stepped = monitor.step(frame)?;
    store(word, stepped.monitor.word);
    Ok(stepped.row)
}
