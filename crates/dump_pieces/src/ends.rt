// The end of the dump.
ghost use Rattle.std.specs.Prelude.{◌≡◌, ◌≤◌, length};
ghost use Rattle.dump_reader.specs.Machine.{finish};
ghost use Rattle.dump_state.specs.Pieces.{held, behind_end, ended_state, end_of, Repeated};

use dump_load::{Loaded, answer_of};
use dump_reader::end_text;
use dump_state::{Read, State, give_again, length_refusal, refuse};

// What stands behind an end with this answer: 17 where it was accepted.
fn behind_end(answer: Loaded) -> Loaded
    ensures { result ≡ behind_end answer }
{
    if answer.refusal != 0 {
        return answer;
    }
    Loaded {
        refusal: 17,
        frames: answer.frames,
        ..Loaded::NONE
    }
}

fn take_end(mut state: State, frames: &mut [u32]) -> Read
    requires { length frames.old ≤ 524288 }
    ensures { (result ≡ ended_state state (finish (held state frames.old))) × (frames.new ≡ (finish (held state frames.old)).frames) }
{
    let reader = end_text(state.reader, &mut state.store, &state.digits, frames);
    let answer = answer_of(reader);
    let standing = behind_end(answer);
    state.reader = reader;
    state.stand(standing);
    Read { state, answer }
}

// Ends the dump: answers what the load of all pieces together answers. The tests are those of a piece.
pub fn end(state: State, frames: &mut [u32]) -> Read
    ensures { (result ≡ (end_of state frames.old).read) × (frames.new ≡ (end_of state frames.old).frames) × Repeated state result frames.old frames.new }
{
    if state.refusal != 0 {
        return give_again(state);
    }
    match length_refusal(state.table, frames.len()) {
        Err(refusal) => refuse(state, refusal.number()),
        Ok(()) => take_end(state, frames),
    }
}
