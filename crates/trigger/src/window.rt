// What the windows of both kinds have in common.
ghost use Rattle.std.specs.Prelude.{true, ◌&&◌, ◌≡◌, ◌-◌, ◌≤◌, T, eqb, leb};
ghost use Rattle.bus.specs.Range.{width, within};
ghost use Rattle.rules.specs.Frame.{up, enabled, Q};

use cycle::sample;
use rules::{Config, Frame};

// Whether a trigger is seen, out of reset: an unknown one is none. Enable and trigger are one test: two would be two branches that the processor cannot foresee.
pub fn sees_trigger(c: Config, frame: Frame) -> bool
    requires { (T (within c.q)) × (width c.q ≡ 1) × (up frame ≡ true) }
    ensures { result ≡ (enabled frame && eqb (Q c frame) 1) }
{
    let trigger = c.q.left as u32;
    ((sample(frame, 0) >> 1) & (sample(frame, 2) >> trigger)) % 2 == 1
}

// Whether a cycle of an open window is tested, with so many cycles left after it: from s+min on at most max - min are left.
pub fn is_tested(c: Config, left: u64, enabled: bool) -> bool
    requires { c.min ≤ c.n }
    ensures { result ≡ (enabled && leb left (c.n - c.min)) }
{
    enabled & (left <= (c.n - c.min) as u64)
}
