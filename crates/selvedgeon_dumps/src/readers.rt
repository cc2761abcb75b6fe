// A dump that arrives in pieces.
ghost use Rattle.std.specs.Prelude.{◌≡◌};
ghost use Rattle.dump_state.specs.Pieces.{begun, piece_of, end_of, Repeated};

use dump_pieces::{end, piece};
use dump_state::{Read, State, begin};

// The state before the first piece, from the table of connections.
#[unsafe(no_mangle)]
pub extern "C" fn selvedgeon_reader_begin(wires: &[u64]) -> State
    ensures { result ≡ begun wires.now }
{
    begin(wires)
}

// Reads one piece. Gives the state behind it, and the refusal, the number of frames sampled so far, and the line and the identifier of a refusal.
#[unsafe(no_mangle)]
pub extern "C" fn selvedgeon_reader_piece(state: State, bytes: &[u8], frames: &mut [u32]) -> Read
    ensures { (result ≡ (piece_of state bytes.now frames.old).read) × (frames.new ≡ (piece_of state bytes.now frames.old).frames) × Repeated state result frames.old frames.new }
{
    piece(state, bytes, frames)
}

// Ends the dump. Gives the state behind it, and the answer of a load of all pieces together.
#[unsafe(no_mangle)]
pub extern "C" fn selvedgeon_reader_end(state: State, frames: &mut [u32]) -> Read
    ensures { (result ≡ (end_of state frames.old).read) × (frames.new ≡ (end_of state frames.old).frames) × Repeated state result frames.old frames.new }
{
    end(state, frames)
}
