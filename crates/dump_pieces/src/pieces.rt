// One piece.
ghost use Rattle.std.specs.Prelude.{◌≡◌, ◌≤◌, length};
ghost use Rattle.dump_reader.specs.Machine.{feed};
ghost use Rattle.dump_state.specs.Pieces.{held, fed_state, piece_of, Repeated};

use dump_load::answer_of;
use dump_reader::read_bytes;
use dump_state::{Read, State, give_again, length_refusal, refuse};

// A piece that is read.
fn take_piece(mut state: State, bytes: &[u8], frames: &mut [u32]) -> Read
    requires { length frames.old ≤ 524288 }
    ensures { (result ≡ fed_state state (feed (held state frames.old) bytes.now)) × (frames.new ≡ (feed (held state frames.old) bytes.now).frames) }
{
    let reader = read_bytes(
        state.reader,
        bytes,
        &mut state.store,
        &mut state.digits,
        frames,
    );
    let answer = answer_of(reader);
    state.reader = reader;
    state.stand(answer);
    Read { state, answer }
}

// Reads one piece, which may be of any length, also of none. Answers the refusal, how many frames were sampled so far, and where a refusal shows.
// An answer that stands, of an accepted end or of a refusal, is given again; then 4 and 5 before anything is read, 10 to 14 and 16.
pub fn piece(state: State, bytes: &[u8], frames: &mut [u32]) -> Read
    ensures { (result ≡ (piece_of state bytes.now frames.old).read) × (frames.new ≡ (piece_of state bytes.now frames.old).frames) × Repeated state result frames.old frames.new }
{
    if state.refusal != 0 {
        return give_again(state);
    }
    match length_refusal(state.table, frames.len()) {
        Err(refusal) => refuse(state, refusal.number()),
        Ok(()) => take_piece(state, bytes, frames),
    }
}
