// The limits of a configuration's numbers.
ghost use Rattle.std.specs.Prelude.{◌≡◌};
ghost use Rattle.rules.specs.Config.{family, family_limits, min_fits, limits};
ghost use Rattle.rules.specs.Families.{named};

use rules::{Config, FATAL, Family, MAX_EVENTS, MAX_WINDOW, MIN_EVENTS, MIN_WINDOW};

// Whether n, min and the severity are inside their limits: of a kind that has no family, no n is.
pub fn within_limits(c: Config) -> bool
    ensures { result ≡ limits c }
{
    let Ok(family) = Family::try_from(c.kind) else {
        return false;
    };
    n_fits(family, c.n) & min_fits(family, c) & (c.severity <= FATAL)
}

// Whether n is inside the limits of the family.
fn n_fits(family: Family, n: u32) -> bool
    ensures { result ≡ family_limits (named family) n }
{
    match family {
        Family::Sequence => (MIN_EVENTS <= n) & (n <= MAX_EVENTS),
        Family::Time => (MIN_WINDOW <= n) & (n <= MAX_WINDOW),
        Family::Transition => n == 0,
        Family::Value | Family::Stability => n <= MAX_WINDOW,
    }
}

// Whether min is at most max, or 0 where the kind's family does not use it.
fn min_fits(f: Family, c: Config) -> bool
    ensures { named f ≡ family c.kind → result ≡ min_fits c }
{
    match f {
        Family::Sequence | Family::Time | Family::Transition => c.min == 0,
        Family::Value | Family::Stability => c.min <= c.n,
    }
}
