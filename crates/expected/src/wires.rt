// What kind 7 looks for at P.
ghost use Rattle.std.specs.Prelude.{◌≡◌, ℕ, ◌^◌, ◌≤◌, ◌<◌, T, eqb};
ghost use Rattle.std.specs.Int.Bits.{bit_and};
ghost use Rattle.bus.specs.Range.{width, within, value_of};
ghost use Rattle.rules.specs.Config.{Good};
ghost use Rattle.expected.specs.Expects.{Expects};

use bits::{low_ones, masked_ascending};
use bus::Range;
use rules::Config;

// The wires of P, and those of them that are 1 where P has the expected value.
#[derive(Clone, Copy, Debug, PartialEq, Eq)]
pub struct Expected {
    pub mask: u32,
    pub wires: u32,
}

// The value is put on its wires once, so that no cycle has to put its wires in order.
pub fn expected_wires(c: Config) -> Expected
    requires { Good c }
    ensures { Expects c result }
{
    let p = c.p;
    if p.descends() {
        return on_wires(p, c.value);
    }
    on_wires(p.turned(), masked_ascending(0, p.width() - 1, c.value))
}

// A value on the wires of a port that is declared descending.
fn on_wires(port: Range, value: u32) -> Expected
    requires { (T (within port)) × (port.right ≤ port.left) × (value < 2 ^ width port) }
    ensures by_index { (wires : ℕ) → eqb (bit_and wires result.mask) result.wires ≡ eqb (value_of port wires) value }
    ensures by_index_2 { (wires : ℕ) → eqb (bit_and wires result.mask) 0 ≡ eqb (value_of port wires) 0 }
{
    let right = port.right as u32;
    Expected {
        mask: (low_ones(port.width()) as u32) << right,
        wires: value << right,
    }
}
