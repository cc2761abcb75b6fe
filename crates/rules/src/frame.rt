// What is sampled in one cycle.

// The words of a frame.
pub const FRAME_WORDS: usize = 8;

// The words of 32 wires: reset, P, Q, R, and in the same order the unknown bits of each, 1 where a wire is x or z.
#[derive(Clone, Copy)]
pub struct Frame {
    pub samples: [u32; FRAME_WORDS],
}
