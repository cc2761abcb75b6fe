// Wires of the reset word that are not connected, taken as 1.
ghost use Rattle.std.specs.Prelude.{◌≡◌, ◌≤◌};
ghost use Rattle.marks_dump.specs.Taken.{with_bits};

// How many frames were sampled: a reader that is lent 65,536 frames has sampled no more.
pub fn count_frames(frames: u64) -> usize
    ensures { result ≤ 65536 }
{
    frames.min(65536) as usize
}

// Sets these bits in the reset word of the first n frames.
pub fn take_as_one(frames: &mut [u32; 524288], bits: u32, n: usize)
    requires { n ≤ 65536 }
    ensures { frames.new ≡ with_bits frames.old 0 bits n }
{
    for t in 0..n {
        frames[8 * t] = frames[8 * t] | bits;
    }
}
