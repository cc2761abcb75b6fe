// A range at the end of a word, byte by byte.
ghost use Rattle.std.specs.Prelude.{◌≡◌};
ghost use Rattle.dump_words.specs.Gather.{scan_add, counts_after, left_digit, left_add, right_digit, right_add, scan_phase};

use crate::number::{Number, add_digit};

// Part of a reader's state, which the C host hands over with any bytes in it: so its kind and its phase are numbers, and no enums.
#[repr(C)]
#[derive(Clone, Copy)]
pub struct Scan {
    // 0 a name, 1 a name that begins with a backslash, 2 a word that is a range from its first byte on.
    pub kind: u64,
    // 1 where a bracket as the next byte would begin a range.
    pub counts: u64,
    // 0 no range is read, 1 its left end, 2 its right end; 3 there is a range with one end, 4 with two.
    pub phase: u64,
    pub left: Number,
    pub right: Number,
}

impl Scan {
    // Nothing is read yet.
    pub const NONE: Scan = Scan {
        kind: 0,
        counts: 0,
        phase: 0,
        left: Number::NONE,
        right: Number::NONE,
    };
}

fn counts_after(kind: u64, b: u8) -> u64
    ensures { result ≡ counts_after kind b }
{
    if kind == 0 {
        return 1;
    }
    if kind == 1 {
        if b == 92 {
            return 1;
        }
    }
    0
}

// The phase goes on while there are digits.
fn phase_of(n: Number, phase: u64) -> u64
    ensures { result ≡ scan_phase n phase }
{
    if n.state == 3 { 0 } else { phase }
}

fn left_digit(s: Scan, b: u8) -> Scan
    ensures { result ≡ left_digit s b }
{
    let left = add_digit(s.left, b);
    let phase = phase_of(left, 1);
    Scan { phase, left, ..s }
}

// A byte behind the opening bracket, which is no bracket of that sort.
fn add_left(s: Scan, b: u8) -> Scan
    ensures { result ≡ left_add s b }
{
    if s.left.state == 0 {
        return left_digit(s, b);
    }
    if b == 58 {
        return Scan { phase: 2, ..s };
    }
    if b == 93 {
        return Scan { phase: 3, ..s };
    }
    left_digit(s, b)
}

fn right_digit(s: Scan, b: u8) -> Scan
    ensures { result ≡ right_digit s b }
{
    let right = add_digit(s.right, b);
    let phase = phase_of(right, 2);
    Scan { phase, right, ..s }
}

// A byte behind the colon, which is no opening bracket.
fn add_right(s: Scan, b: u8) -> Scan
    ensures { result ≡ right_add s b }
{
    if s.right.state == 0 {
        return right_digit(s, b);
    }
    if b == 93 {
        return Scan { phase: 4, ..s };
    }
    right_digit(s, b)
}

// One more byte.
pub fn add_scan(s: Scan, b: u8) -> Scan
    ensures { result ≡ scan_add s b }
{
    let t = Scan {
        counts: counts_after(s.kind, b),
        ..s
    };
    if b == 91 {
        let none = Scan {
            phase: 0,
            left: Number::NONE,
            right: Number::NONE,
            ..t
        };
        if s.counts == 1 {
            return Scan { phase: 1, ..none };
        }
        return none;
    }
    if s.phase == 1 {
        return add_left(t, b);
    }
    if s.phase == 2 {
        return add_right(t, b);
    }
    Scan { phase: 0, ..t }
}
