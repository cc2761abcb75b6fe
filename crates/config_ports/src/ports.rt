// The ports of a configuration, and the value that is expected at P.
ghost use Rattle.std.specs.Prelude.{◌≡◌, T};
ghost use Rattle.bus.specs.Range.{within};
ghost use Rattle.rules.specs.Config.{family, value_fits, unused, widths_of, ports};
ghost use Rattle.rules.specs.Families.{named};

use bits::low_ones;
use bus::Range;
use rules::{Config, Family};

// Whether the expected value fits the width of P, whose ends are wires, or is 0 where it is unused.
fn value_fits(f: Family, c: Config) -> bool
    requires { T (within c.p) }
    ensures { named f ≡ family c.kind → result ≡ value_fits c }
{
    match f {
        Family::Value => c.value as u64 <= low_ones(c.p.width()),
        Family::Sequence | Family::Time | Family::Transition | Family::Stability => c.value == 0,
    }
}

// Whether a port's declaration is 0:0, as that of an unused port must be.
fn is_unused(range: Range) -> bool
    ensures { result ≡ unused range }
{
    (range.left == 0) & (range.right == 0)
}

// Whether the ports have the widths that the family asks for, and those that it does not use are 0:0.
fn widths_fit(f: Family, c: Config) -> bool
    ensures { result ≡ widths_of (named f) c }
{
    let width = c.p.width();
    match f {
        Family::Sequence => (width == c.n) & (is_unused(c.q) & is_unused(c.r)),
        Family::Time => (width == 1) & ((c.q.width() == 1) & is_unused(c.r)),
        Family::Transition => (c.q.width() == width) & (c.r.width() == width),
        Family::Value | Family::Stability => (c.q.width() == 1) & is_unused(c.r),
    }
}

// Whether no index is above 31, the widths fit, and the expected value: of a kind that has no family, no width fits.
pub fn ports_fit(c: Config) -> bool
    ensures { result ≡ ports c }
{
    if !(c.p.within() & (c.q.within() & c.r.within())) {
        return false;
    }
    let Ok(family) = Family::try_from(c.kind) else {
        return false;
    };
    widths_fit(family, c) & value_fits(family, c)
}
