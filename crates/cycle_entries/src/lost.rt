// The attempts of a sequence that fail in a cycle.
ghost use Rattle.std.specs.Prelude.{◌≡◌, not, ◌&&◌, ◌||◌, ℕ, suc, ◌-◌, T, eqb};
ghost use Rattle.bits.specs.Bits.{bit, number};
ghost use Rattle.rules.specs.Config.{Good, family};
ghost use Rattle.rules.specs.Config.Family.{sequence};
ghost use Rattle.rules.specs.Possible.{going_possible};
ghost use Rattle.rules.specs.Sequence.{event_missed};

use rules::{Config, Frame};
use sequence::missed_in_order;

// Bit j is 1 where the attempt that started j+1 cycles ago has not its event, which is known to be 0: of kind 0 the oldest alone.
pub fn lost_attempts(c: Config, word: u64, frame: Frame) -> u64
    requires { (Good c) × (family c.kind ≡ sequence) × (T (going_possible c word)) }
    ensures { result ≡ number (c.n - 1) (λ (j : ℕ). bit word j && event_missed c frame (c.n - 1 - suc j) && (not (eqb c.kind 0) || eqb (suc j) (c.n - 1))) }
{
    let lost = word & (missed_in_order(c, frame) >> 1);
    // The kinds of a family are told apart by the number that the C interface has for them.
    if c.kind == 0 {
        lost & (1u64 << (c.n - 2))
    } else {
        lost
    }
}
