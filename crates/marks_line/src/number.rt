// Numbers in a line.
ghost use Rattle.std.specs.Prelude.{◌≡◌, ◌-◌, ◌++◌, length, replicate, decimal};
ghost use Rattle.marks_line.specs.Lines.{with_bytes};

use crate::line::Line;
use itoa::Buffer;

impl Line {
    // In decimal.
    pub fn put_number(&mut self, n: u64)
        ensures { self.new ≡ with_bytes self.old (decimal n) }
    {
        let mut buffer = Buffer::new();
        self.put(buffer.format(n));
    }

    // In decimal, with spaces before it up to this width; a longer number is put whole.
    pub fn put_right(&mut self, n: u64, width: usize)
        ensures { self.new ≡ with_bytes self.old (replicate (width - length (decimal n)) 32 ++ decimal n) }
    {
        let mut buffer = Buffer::new();
        let digits = buffer.format(n);
        self.put_spaces(width.saturating_sub(digits.len()));
        self.put(digits);
    }
}
