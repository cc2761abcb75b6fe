// The refusal of a configuration.
ghost use Rattle.std.specs.Prelude.{◌≡◌};
ghost use Rattle.rules.specs.Config.{config_refusal};
ghost use Rattle.rules.specs.Refusals.{refusal_of};

use config_limits::within_limits;
use config_ports::ports_fit;
use rules::{Config, MAX_KIND, Refusal};

// Refuses a configuration by its kind, its limits or its ports, else accepts it.
pub fn config_refusal(c: Config) -> Result<(), Refusal>
    ensures { refusal_of result ≡ config_refusal c }
{
    if MAX_KIND < c.kind {
        return Err(Refusal::Kind);
    }
    if !within_limits(c) {
        return Err(Refusal::Limits);
    }
    if !ports_fit(c) {
        return Err(Refusal::Ports);
    }
    Ok(())
}
