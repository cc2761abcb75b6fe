// The open word of a fatal checker that has failed.
pub const STOPPED: u64 = 0x8000_0000_0000_0000;
