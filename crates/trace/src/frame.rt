// The frames of a lent trace.
ghost use Rattle.std.specs.Prelude.{◌≡◌, ◌/◌, ◌<◌};
ghost use Rattle.rules.specs.Frame.{frame_words};
ghost use Rattle.trace.specs.Traces.{frames, frame_at};

use rules::{FRAME_WORDS, Frame};

// How many frames a trace of so many words has.
pub fn frames_in(words: usize) -> usize
    ensures { result ≡ words / frame_words }
{
    words / FRAME_WORDS
}

// The frame of cycle t, which the trace has.
pub fn frame_at(trace: &[u32], t: usize) -> Frame
    requires { t < frames trace.now }
    ensures { result ≡ frame_at trace.now t }
{
    let first = FRAME_WORDS * t;
    let samples: &[u32; FRAME_WORDS] = trace[first..first + FRAME_WORDS].as_array().unwrap();
    Frame { samples: *samples }
}
