// A row is the sum of its marks.
ghost use Rattle.std.specs.Prelude.{◌≡◌, ◌≤◌};
ghost use Rattle.bits.specs.Bits.{to_bit};
ghost use Rattle.rules.specs.Rules.{row_of, check_marks, window_marks};

use rules::{CLOSED, FAILURE, ILLEGAL_START, OPENED, RESTARTED, UNKNOWN};

// 1 for true and 0 for false. `u32::from` gives the same number, but does not say that it is at most 1, which the sums of marks need.
pub fn to_bit(b: bool) -> u32
    ensures value { result ≡ to_bit b }
    ensures upper_bound { result ≤ 1 }
{
    b as u32
}

// The marks of a cycle.
#[derive(Clone, Copy, Debug, Default, PartialEq, Eq)]
pub struct Marks {
    pub failure: bool,
    pub illegal: bool,
    pub opened: bool,
    pub closed: bool,
    pub restarted: bool,
    pub unknown: bool,
}

impl Marks {
    // The row of a cycle with these marks.
    pub fn row(self) -> u32
        ensures { result ≡ row_of (record { failure = self.failure; illegal = self.illegal; opened = self.opened; closed = self.closed; restarted = self.restarted; unknown = self.unknown }) }
    {
        FAILURE * to_bit(self.failure)
            + ILLEGAL_START * to_bit(self.illegal)
            + OPENED * to_bit(self.opened)
            + CLOSED * to_bit(self.closed)
            + RESTARTED * to_bit(self.restarted)
            + UNKNOWN * to_bit(self.unknown)
    }
}

// The row of a cycle where a check can fail or be in doubt and one can be opened, and nothing else.
pub fn check_row(failure: bool, opened: bool, unknown: bool) -> u32
    ensures { result ≡ row_of (check_marks failure opened unknown) }
{
    window_row(failure, opened, false, unknown)
}

// The row of a cycle where also a window can be closed.
pub fn window_row(failure: bool, opened: bool, closed: bool, unknown: bool) -> u32
    ensures { result ≡ row_of (window_marks failure opened closed unknown) }
{
    let marks = Marks {
        failure,
        opened,
        closed,
        unknown,
        ..Marks::default()
    };
    marks.row()
}
