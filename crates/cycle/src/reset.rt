// Reset and enable.
ghost use Rattle.std.specs.Prelude.{true, ◌≡◌};
ghost use Rattle.rules.specs.Frame.{up, enabled};

use super::wires::sample;
use rules::Frame;

// Whether reset_n is 1: unknown, it counts as 0.
pub fn out_of_reset(frame: Frame) -> bool
    ensures { result ≡ up frame }
{
    sample(frame, 0) % 2 == 1
}

// Whether enable is 1, in a cycle out of reset: unknown, it counts as 0.
pub fn is_enabled(frame: Frame) -> bool
    requires { up frame ≡ true }
    ensures { result ≡ enabled frame }
{
    (sample(frame, 0) >> 1) % 2 == 1
}
