// What can be wrong with the arguments.
use std::fmt;

#[derive(Clone, Copy, Debug, PartialEq, Eq)]
pub enum Fault {
    // The arguments end where one more is due.
    Missing,
    NotNumber,
    NotCode,
    NotOption,
    // An option is given a second time.
    Twice,
    // A port of more than 32 wires.
    TooWide,
    NoClock,
}

impl fmt::Display for Fault {
    fn fmt<W: fmt::Write>(&self, f: &mut fmt::Formatter<W>) -> fmt::Result {
        f.write_str(match self {
            Fault::Missing => "the arguments end before word",
            Fault::NotNumber => {
                "a decimal number is due here, of at most 32 bits, or 64 for an index"
            }
            Fault::NotCode => "an identifier code of 1 to 8 characters is due here",
            Fault::NotOption => {
                "clock, reset, enable, p, q, r, min, value or severity is due here"
            }
            Fault::Twice => "it is given twice",
            Fault::TooWide => "the port would have more than 32 wires",
            Fault::NoClock => "no clock is given",
        })
    }
}

// A fault, and the argument at which it shows.
#[derive(Clone, Copy, Debug, PartialEq, Eq)]
pub struct Misuse {
    pub fault: Fault,
    pub at: usize,
}
