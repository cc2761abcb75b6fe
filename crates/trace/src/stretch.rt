// A stretch of a trace that is run into lent rows and words.
ghost use Rattle.std.specs.Prelude.{◌≡◌, ◌≤◌, length};
ghost use Rattle.trace.specs.Stretches.{kept_from};

// Entries `at` to `to` - 1 of the rows and words, where entry k is cycle `from` + k; whether the run stops where its word is the kept one; and the run's own
// word and the kept one before entry `at`.
#[derive(Clone, Copy)]
pub struct Stretch {
    pub from: usize,
    pub at: usize,
    pub to: usize,
    pub stops: bool,
    pub word: u64,
    pub kept: u64,
}

// The entry that a run has come to, and the two words before it.
#[derive(Clone, Copy)]
pub struct Reached {
    pub at: usize,
    pub word: u64,
    pub kept: u64,
}

// The kept word before the end of a stretch, where `kept` is the one before its start: of an empty stretch that one, else the last entry's.
pub fn kept_at_end(words: &[u64], at: usize, to: usize, kept: u64) -> u64
    requires { (at ≤ to) × (to ≤ length words.now) }
    ensures { result ≡ kept_from words.now at kept to }
{
    if at < to { words[to - 1] } else { kept }
}
