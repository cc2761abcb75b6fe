// What the changes have said so far, but for the values themselves, which stand in the store.
ghost use Rattle.std.specs.Prelude.{◌≡◌};
ghost use Rattle.dump_change.specs.Change.{at, unknown_code};

// Part of a reader's state, which the C host hands over with any bytes in it: so its place and its flags are numbers, and no enums.
#[repr(C)]
#[derive(Clone, Copy)]
pub struct Wave {
    // The word that is due; 100 and the refusal.
    pub place: u64,
    // The identifier that a refusal names.
    pub identifier: u64,
    // 1 within `$dumpall`, `$dumpoff`, `$dumpon` or `$dumpvars`.
    pub dumping: u64,
    // How many digits the vector has whose code is due.
    pub count: u64,
    // 1 behind the first stamp, and that stamp.
    pub stamped: u64,
    pub stamp: u64,
    // How many frames are sampled.
    pub frames: u64,
}

impl Wave {
    // Nothing is read yet.
    pub const START: Wave = Wave {
        place: 0,
        identifier: 0,
        dumping: 0,
        count: 0,
        stamped: 0,
        stamp: 0,
        frames: 0,
    };
}

// Another word is due, and nothing else changes.
pub fn wave_at(w: Wave, place: u64) -> Wave
    ensures { result ≡ at w place }
{
    Wave { place, ..w }
}

// Refused for a code that is not declared.
pub fn unknown_code(w: Wave, x: u64) -> Wave
    ensures { result ≡ unknown_code w x }
{
    Wave {
        place: 110,
        identifier: x,
        ..w
    }
}
