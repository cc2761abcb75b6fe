// Samples that change places.
ghost use Rattle.std.specs.Prelude.{◌+◌, ◌≤◌, length};
ghost use Rattle.edit_samples.specs.Samples.{Swapped};

// The samples change places with the words of the trace from the word `first` on, which has as many.
pub fn swap_words(trace: &mut [u32], first: usize, samples: &mut [u32])
    requires { first + length samples.old ≤ length trace.old }
    ensures { Swapped trace.old samples.old first trace.new samples.new }
{
    trace[first..first + samples.len()].swap_with_slice(samples);
}
