// What a reader keeps from call to call, and what a call gives.
ghost use Rattle.std.specs.Prelude.{◌≡◌};
ghost use Rattle.dump_state.specs.Pieces.{answering};

use dump_load::Loaded;
use dump_reader::Reader;

// The C host hands it over with any bytes in it and compares what it gets back: so every byte belongs to a number, its flags are numbers and no enums, and
// its arrays stand in it.
#[repr(C)]
#[derive(Clone, Copy)]
pub struct State {
    // The answer that stands, with the three numbers behind the next one: where its refusal is not 0, each further call gives it again and alters nothing.
    pub refusal: u32,
    // 0 where the table of connections had its 258 words.
    pub table: u32,
    pub frames: u64,
    pub line: u64,
    pub identifier: u64,
    pub reader: Reader,
    pub store: [u64; 8468],
    pub digits: [u8; 4096],
}

impl State {
    // This answer stands from now on.
    pub fn stand(&mut self, answer: Loaded)
        ensures { self.new ≡ answering self.old answer }
    {
        self.refusal = answer.refusal;
        self.frames = answer.frames;
        self.line = answer.line;
        self.identifier = answer.identifier;
    }
}

// What a piece and the end give.
#[repr(C)]
#[derive(Clone, Copy)]
pub struct Read {
    pub state: State,
    pub answer: Loaded,
}
