// The configuration of the numbers that the C host passes.
ghost use Rattle.std.specs.Prelude.{◌≡◌};
ghost use Rattle.numbered.specs.Numbered.{config_of};

use bus::Range;
use rules::Config;

// The C interface has eleven numbers for a configuration, and no struct.
pub fn config_of(
    kind: u8,
    n: u32,
    p_left: u8,
    p_right: u8,
    q_left: u8,
    q_right: u8,
    r_left: u8,
    r_right: u8,
    min: u32,
    value: u32,
    severity: u8,
) -> Config
    ensures { result ≡ config_of kind n p_left p_right q_left q_right r_left r_right min value severity }
{
    Config {
        kind,
        n,
        p: Range {
            left: p_left,
            right: p_right,
        },
        q: Range {
            left: q_left,
            right: q_right,
        },
        r: Range {
            left: r_left,
            right: r_right,
        },
        min,
        value,
        severity,
    }
}
