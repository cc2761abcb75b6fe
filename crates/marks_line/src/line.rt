// A line of a table.
ghost use Rattle.std.specs.Prelude.{◌≡◌, ◌≤◌, ℕ, List, [], ◌∷◌, take, replicate};
ghost use Rattle.marks_line.specs.Lines.{with_bytes};

use std::io;
use std::marker::Model;

// Bytes, of which the first `used` are the line so far.
#[derive(Drop)]
pub struct Line {
    bytes: [u8; 256],
    used: usize,
}

impl Model for Line {
    ghost Value = { List ℕ };

    ghost view = { λ line. take line.used line.bytes };

    ghost invariant = { λ line. line.used ≤ 256 };
}

impl Line {
    pub fn new() -> Line
        ensures { result ≡ [] }
    {
        Line {
            bytes: [b' '; 256],
            used: 0,
        }
    }

    pub(crate) fn put_byte(&mut self, b: u8)
        ensures { self.new ≡ with_bytes self.old (b ∷ []) }
    {
        if self.used < 256 {
            self.bytes[self.used] = b;
            self.used += 1;
        }
    }

    pub fn put(&mut self, text: &str)
        ensures { self.new ≡ with_bytes self.old text.now }
    {
        for b in text.as_bytes() {
            self.put_byte(*b);
        }
    }

    // So many spaces.
    pub fn put_spaces(&mut self, count: usize)
        ensures { self.new ≡ with_bytes self.old (replicate count 32) }
    {
        for _ in 0..count {
            self.put_byte(b' ');
        }
    }

    // Writes the line, and the end of a line.
    pub fn print(&self, rt: &impl Print) -> io::Result<()> {
        rt.write_all(&self.bytes[..self.used])?;
        rt.write_all(b"\n")
    }
}
