// What the declarations have said so far, but for the codes themselves, which stand in the store.
ghost use Rattle.std.specs.Prelude.{◌≡◌};
ghost use Rattle.dump_declare.specs.Declare.{at, commanded, named};

// Part of a reader's state, which the C host hands over with any bytes in it: so its place, its flags and its ends are numbers, and no enums.
#[repr(C)]
#[derive(Clone, Copy)]
pub struct Head {
    // The word that is due; 20 behind the declarations; 100 and the refusal.
    pub place: u64,
    pub depth: u64,
    pub vars: u64,
    // How many codes there are.
    pub codes: u64,
    // The variable that is declared: 1 for a real, its width and code.
    pub real: u64,
    pub width: u64,
    pub code: u64,
    // 1 where the range at the end of its name does not fit.
    pub misfit: u64,
    // Its range: 0 none, 1 with two ends, 2 with one.
    pub ends: u64,
    pub left: u64,
    pub right: u64,
}

impl Head {
    // Nothing is read, and a command is due.
    pub const START: Head = Head {
        place: 0,
        depth: 0,
        vars: 0,
        codes: 0,
        real: 0,
        width: 0,
        code: 0,
        misfit: 0,
        ends: 0,
        left: 0,
        right: 0,
    };
}

// Another word is due, and nothing else changes.
pub fn at_place(h: Head, place: u64) -> Head
    ensures { result ≡ at h place }
{
    Head { place, ..h }
}

// Behind a command's keyword or its end: no variable is declared.
pub fn at_command(place: u64, depth: u64, vars: u64, codes: u64) -> Head
    ensures { result ≡ commanded place depth vars codes }
{
    Head {
        place,
        depth,
        vars,
        codes,
        ..Head::START
    }
}

// The variable with this range, where a next word is due.
pub fn at_range(h: Head, place: u64, misfit: u64, ends: u64, left: u64, right: u64) -> Head
    ensures { result ≡ named h place misfit ends left right }
{
    Head {
        place,
        misfit,
        ends,
        left,
        right,
        ..h
    }
}
