// A checker's configuration, and the limits of its n.
use bus::Range;

// The events of kinds 0 to 2, and the cycles of a window: at least of kinds 3 to 5, and at most of kinds 3 to 5, 7 and 8.
pub const MIN_EVENTS: u32 = 2;

pub const MAX_EVENTS: u32 = 32;

pub const MIN_WINDOW: u32 = 1;

pub const MAX_WINDOW: u32 = 65535;

// The highest kind.
pub const MAX_KIND: u8 = 8;

// The severity of a fatal checker, which is the highest.
pub const FATAL: u8 = 1;

// The kind, num_cks or max, the declared ranges of the ports P, Q and R, of kinds 7 and 8 min and the expected value, 0 where unused, and the severity: 0 goes on
// after a failure, 1 is fatal.
#[repr(C)]
#[derive(Clone, Copy)]
pub struct Config {
    pub kind: u8,
    pub n: u32,
    pub p: Range,
    pub q: Range,
    pub r: Range,
    pub min: u32,
    pub value: u32,
    pub severity: u8,
}
