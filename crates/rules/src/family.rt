// The families of the kinds: kinds of a family share their ports, their open words and their step.
ghost use Rattle.std.specs.Prelude.{◌≡◌, ◌≤◌};
ghost use Rattle.rules.specs.Config.{family, max_kind};
ghost use Rattle.rules.specs.Families.{named, Names};

use super::config::Config;

#[derive(Clone, Copy, Debug, PartialEq, Eq)]
pub enum Family {
    Sequence,
    Time,
    Transition,
    Value,
    Stability,
}

// A kind above the highest.
#[derive(Clone, Copy, Debug, PartialEq, Eq)]
pub struct NoSuchKind;

impl TryFrom<u8> for Family {
    type Error = NoSuchKind;

    ghost try_from_gives = { Names };

    fn try_from(kind: u8) -> Result<Family, NoSuchKind> {
        match kind {
            0..=2 => Ok(Family::Sequence),
            3..=5 => Ok(Family::Time),
            6 => Ok(Family::Transition),
            7 => Ok(Family::Value),
            8 => Ok(Family::Stability),
            9..=255 => Err(NoSuchKind),
        }
    }
}

impl Config {
    // The family of a kind that is not refused.
    pub fn family(self) -> Family
        requires { self.kind ≤ max_kind }
        ensures { named result ≡ family self.kind }
    {
        Family::try_from(self.kind).unwrap()
    }
}
