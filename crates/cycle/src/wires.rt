// The words of a frame as the steps read them.
ghost use Rattle.std.specs.Prelude.{◌≡◌, ◌<◌};
ghost use Rattle.rules.specs.Frame.{sample};

use bits::without;
use rules::Frame;

// The wires of word i that are known to be 1, for reset, P, Q and R: a value bit under an unknown bit is ignored.
pub fn sample(frame: Frame, i: usize) -> u32
    requires { i < 4 }
    ensures { result ≡ sample frame i }
{
    let words = frame.samples;
    without(words[i], words[4 + i])
}
