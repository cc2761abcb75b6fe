// One step for the C host.
ghost use Rattle.std.specs.Prelude.{[], ◌∷◌};
ghost use Rattle.byte_step.specs.Step.{ByteStep};
ghost use Rattle.numbered.specs.Numbered.{config_of};

use byte_step::step_bytes;
use numbered::config_of;
use rules::Frame;

// One step of the checker on the frame of the four samples and their unknown bits. The open word is in the eight lent bytes, least significant first: the next word is written
// there. Answers 256 times the refusal number plus the row. Refusals 1, 2 and 3, then 5 for a slice that is not 8 bytes long, then 7; refused: the bytes
// are as they were.
#[unsafe(no_mangle)]
pub extern "C" fn selvedgeon_step(
    kind: u8,
    n: u32,
    p_left: u8,
    p_right: u8,
    q_left: u8,
    q_right: u8,
    r_left: u8,
    r_right: u8,
    min: u32,
    value: u32,
    severity: u8,
    reset: u32,
    p: u32,
    q: u32,
    r: u32,
    reset_x: u32,
    p_x: u32,
    q_x: u32,
    r_x: u32,
    word: &mut [u8],
) -> u32
    ensures { ByteStep (config_of kind n p_left p_right q_left q_right r_left r_right min value severity) (record { samples = reset ∷ p ∷ q ∷ r ∷ reset_x ∷ p_x ∷ q_x ∷ r_x ∷ [] }) word.old word.new result }
{
    let config = config_of(
        kind, n, p_left, p_right, q_left, q_right, r_left, r_right, min, value, severity,
    );
    let samples = [reset, p, q, r, reset_x, p_x, q_x, r_x];
    step_bytes(config, Frame { samples }, word)
}
