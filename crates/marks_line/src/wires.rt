// The wires of a port in a line: 0, 1, or x where a wire is unknown.
use crate::line::Line;
use bus::Range;

// What is sampled of 32 wires: those that are 1, and those that are unknown.
#[derive(Clone, Copy, Debug, PartialEq, Eq)]
pub struct Sample {
    pub wires: u32,
    pub unknown: u32,
}

impl Line {
    // One wire of a sample; a wire above 31 is none.
    pub fn put_wire(&mut self, sample: Sample, wire: u32) {
        if 31 < wire {
            return;
        }
        if (sample.unknown >> wire) % 2 == 1 {
            self.put_byte(b'x');
        } else if (sample.wires >> wire) % 2 == 1 {
            self.put_byte(b'1');
        } else {
            self.put_byte(b'0');
        }
    }

    // The wires of a port in the order of its range, the left one first.
    pub fn put_bits(&mut self, sample: Sample, range: Range) {
        let left = u32::from(range.left);
        let right = u32::from(range.right);
        if range.descends() {
            for wire in (right..=left).rev() {
                self.put_wire(sample, wire);
            }
        } else {
            for wire in left..=right {
                self.put_wire(sample, wire);
            }
        }
    }
}
