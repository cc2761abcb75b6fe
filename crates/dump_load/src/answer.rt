// What a load answers.
ghost use Rattle.std.specs.Prelude.{◌≡◌};
ghost use Rattle.dump_load.specs.Loading.{refused_with, answered};

use dump_reader::{Reader, place_of};

// The C host reads it, so the refusal stands by its number, 0 for none.
#[repr(C)]
#[derive(Clone, Copy)]
pub struct Loaded {
    pub refusal: u32,
    // How many frames were sampled.
    pub frames: u64,
    // Where a refusal shows: its line, and the identifier that it names, or 0.
    pub line: u64,
    pub identifier: u64,
}

impl Loaded {
    // Not refused, and nothing is sampled.
    pub const NONE: Loaded = Loaded {
        refusal: 0,
        frames: 0,
        line: 0,
        identifier: 0,
    };
}

// Refused before anything is read, with any number.
pub fn refused_with(refusal: u32) -> Loaded
    ensures { result ≡ refused_with refusal }
{
    Loaded {
        refusal,
        ..Loaded::NONE
    }
}

// The answer of a reader behind the end of the text.
pub fn answer_of(r: Reader) -> Loaded
    ensures { result ≡ answered r }
{
    let place = place_of(r);
    if place < 100 {
        return Loaded {
            frames: r.wave.frames,
            ..Loaded::NONE
        };
    }
    let refusal = (place - 100) % 4294967296;
    Loaded {
        refusal: refusal as u32,
        frames: r.wave.frames,
        line: r.shown,
        identifier: r.wave.identifier,
    }
}
