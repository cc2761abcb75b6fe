// The declared range of a port, and the value that the port's wires hold.
ghost use Rattle.std.specs.Prelude.{◌≡◌, not, ℕ, ◌≤◌, ◌<◌, T, eqb, leb};
ghost use Rattle.bits.specs.Bits.{bit};
ghost use Rattle.bus.specs.Range.{width, within, value_of};

use bits::{ascending, descending, downward, masked, masked_ascending, upward};

// The ends of a port's declaration, as in Verilog: the wire `left` is the most significant.
#[repr(C)]
#[derive(Clone, Copy, Debug, PartialEq, Eq)]
pub struct Range {
    pub left: u8,
    pub right: u8,
}

impl Range {
    // Whether both ends are wires of a 32-bit word.
    pub fn within(self) -> bool
        ensures { result ≡ within self }
    {
        self.left <= 31 && self.right <= 31
    }

    // How many wires the port has.
    pub fn width(self) -> u32
        ensures { result ≡ width self }
    {
        u32::from(self.left.abs_diff(self.right)) + 1
    }

    // The same wires declared from the other end, so that the value's bits come in the other order.
    pub fn turned(self) -> Range
        ensures { (result.left ≡ self.right) × (result.right ≡ self.left) }
    {
        Range {
            left: self.right,
            right: self.left,
        }
    }

    // The value of the port in a sample of 32 wires, for ends of at most 31.
    pub fn value(self, wires: u32) -> u32
        requires { T (within self) }
        ensures { result ≡ value_of self wires }
    {
        if self.descends() {
            descending(self.left as u32, self.right as u32, wires)
        } else {
            ascending(self.left as u32, self.right as u32, wires)
        }
    }

    // The same by masks, which depend on the range alone: for a loop that reads one port of a direction that is not known.
    pub fn masked_value(self, wires: u32) -> u32
        requires { T (within self) }
        ensures { result ≡ value_of self wires }
    {
        if self.descends() {
            self.descending_value(wires)
        } else {
            masked_ascending(self.left as u32, self.right as u32, wires)
        }
    }

    // A word whose lowest bits are the value's, as many as the port has wires: above them are other wires.
    pub fn low_bits(self, wires: u32) -> u32
        requires { T (within self) }
        ensures { (k : ℕ) → k < width self → bit result k ≡ bit (value_of self wires) k }
    {
        if self.descends() {
            upward(self.right as u32, wires)
        } else {
            downward(self.right as u32, wires)
        }
    }

    // Whether the port is declared from a higher wire down to a lower one, or has one wire: then its wires stand in the value's order.
    pub fn descends(self) -> bool
        ensures { result ≡ leb self.right self.left }
    {
        self.right <= self.left
    }

    // The value of such a port.
    pub fn descending_value(self, wires: u32) -> u32
        requires { (T (within self)) × (self.right ≤ self.left) }
        ensures { result ≡ value_of self wires }
    {
        masked(self.left as u32, self.right as u32, wires)
    }

    // Whether some wire of the port is 1, whichever way it is declared: its value is not 0, without putting wires in order.
    pub fn has_one(self, wires: u32) -> bool
        requires { T (within self) }
        ensures { result ≡ not (eqb (value_of self wires) 0) }
    {
        if self.descends() {
            self.descending_value(wires) != 0
        } else {
            masked(self.right as u32, self.left as u32, wires) != 0
        }
    }

    // Whether the one wire of a port of width 1 is 1: its value without putting wires in order.
    pub fn wire(self, wires: u32) -> bool
        requires { (T (within self)) × (width self ≡ 1) }
        ensures { result ≡ eqb (value_of self wires) 1 }
    {
        (wires >> (self.left as u32)) % 2 == 1
    }
}
