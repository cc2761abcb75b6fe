// The dump, block by block.
use dump_load::Loaded;
use dump_pieces::{end, piece};
use dump_state::{State, begin};
use std::io;
use std::io::Read;

// All blocks, each of at most 65,536 bytes. Nothing is read behind a refusal. A proved loop has to end, and nothing says that the input does, so there is a last
// turn, which no run comes to.
fn read_blocks(
    input: &mut impl Read,
    first: State,
    frames: &mut [u32; 524288],
) -> io::Result<State> {
    let mut state = first;
    for _ in 0..u64::MAX {
        let mut space = [0u8; 65536];
        let n = input.read(&mut space)?;
        if n == 0 {
            break;
        }
        let read = piece(state, &space[..n], frames);
        state = read.state;
        if state.refusal != 0 {
            break;
        }
    }
    Ok(state)
}

// What the whole dump gives, or that the system refuses to read it. What was kept of the blocks before is all that is held: a dump of any length takes the same
// memory. Where a block was refused the end gives that refusal again.
pub fn read_dump(
    input: &mut impl Read,
    wires: &[u64; 258],
    frames: &mut [u32; 524288],
) -> io::Result<Loaded> {
    let state = read_blocks(input, begin(wires), frames)?;
    Ok(end(state, frames).answer)
}
