// What a call tests before it reads.
ghost use Rattle.std.specs.Prelude.{◌≡◌};
ghost use Rattle.rules.specs.Refusals.{refusal_of};
ghost use Rattle.dump_state.specs.Pieces.{length_refusal, again, refusing};

use crate::state::{Read, State};
use dump_load::{Loaded, frames_fit, refused_with};
use rules::Refusal;

// Whether the frames, and then the table, are refused by their lengths.
pub fn length_refusal(table: u32, words: usize) -> Result<(), Refusal>
    ensures { refusal_of result ≡ length_refusal table words }
{
    if frames_fit(words) {
        if table == 0 {
            return Ok(());
        }
        return Err(Refusal::SliceLength);
    }
    Err(Refusal::TraceLength)
}

// The answer that stands, given again.
pub fn give_again(state: State) -> Read
    ensures { result ≡ again state }
{
    let standing = Loaded {
        refusal: state.refusal,
        frames: state.frames,
        line: state.line,
        identifier: state.identifier,
    };
    Read {
        state,
        answer: standing,
    }
}

// A refusal by a length, or by any number, which stands from now on.
pub fn refuse(mut state: State, refusal: u32) -> Read
    ensures { result ≡ refusing state refusal }
{
    let answer = refused_with(refusal);
    state.stand(answer);
    Read { state, answer }
}
