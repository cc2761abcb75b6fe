// What a step leaves.

// The cycle's row and the next open word. Where both are 0 a step writes `Outcome { row: 0, word: 0 }`: a name for it would be no shorter, and say less.
#[derive(Clone, Copy)]
pub struct Outcome {
    pub row: u32,
    pub word: u64,
}
