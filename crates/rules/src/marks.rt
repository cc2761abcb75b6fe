// The marks of a row: how many there are, and what each weighs in the sum.
pub const MARKS: usize = 6;

pub const FAILURE: u32 = 1;

pub const ILLEGAL_START: u32 = 2;

pub const OPENED: u32 = 4;

pub const CLOSED: u32 = 8;

pub const RESTARTED: u32 = 16;

pub const UNKNOWN: u32 = 32;
