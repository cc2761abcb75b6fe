// The open word of kind 8.

// A window that holds a reference adds this, and the reference so many times.
pub const REFERENCE_HELD: u64 = 0x1_0000_0000_0000;

pub const REFERENCE_UNIT: u64 = 0x1_0000;
