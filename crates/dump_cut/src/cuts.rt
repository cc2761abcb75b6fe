// A dump that is cut in two.
ghost use Rattle.std.specs.Prelude.{◌≡◌, ◌++◌};
ghost use Rattle.dump.specs.Load.{load, filled};
ghost use Rattle.dump_load.specs.Loading.{loaded_of};

use dump_load::Loaded;
use dump_pieces::{end, piece};
use dump_state::begin;

// Two pieces and the end: wherever a dump is cut, its load. Proved from the contracts of the calls and the claim on cutting alone.
pub fn load_cut(front: &[u8], back: &[u8], wires: &[u64], frames: &mut [u32]) -> Loaded
    ensures { (result ≡ loaded_of (load (front.now ++ back.now) wires.now frames.old)) × (frames.new ≡ filled (load (front.now ++ back.now) wires.now frames.old).frames frames.old) }
{
    let first = begin(wires);
    let second = piece(first, front, frames);
    let third = piece(second.state, back, frames);
    let last = end(third.state, frames);
    last.answer
}
