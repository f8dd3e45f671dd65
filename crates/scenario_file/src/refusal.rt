ghost use Rattle.std.specs.Prelude.{◌≡◌};

use plain_lists::{Text, Want};
use std::fmt;
use thiserror::Error;

/// Why bytes are no scenario: the first fault. A name is a key's, as `f` or `point[2].area`.
#[derive(Drop, Error)]
pub enum ScenarioRefusal {
    /// The bytes are no TOML.
    #[error("BadToml")]
    BadToml,
    /// A key without a default isn't there.
    #[error("MissingKey {}", .name.as_str())]
    MissingKey { name: Text },
    /// A key's value has another type, is out of range or names nothing that is there.
    #[error("BadValue {}", .name.as_str())]
    BadValue { name: Text },
    /// A key's list is longer than it may be.
    #[error("TooMany {}", .name.as_str())]
    TooMany { name: Text },
    /// All is well but for a key that no scenario has.
    #[error("UnknownKey {}", .name.as_str())]
    UnknownKey { name: Text },
    #[error("want of memory")]
    Want,
}

impl From<Want> for ScenarioRefusal {
    ghost use Rattle.std.specs.Prelude.{◌≡◌};
    ghost use Rattle.scenario_file.specs.declared.refusal.ScenarioRefusal.TheVariants.{Want as WantRefusal};

    ghost from_gives = { λ _ e. e ≡ WantRefusal };

    fn from(_refused: Want) -> ScenarioRefusal {
        ScenarioRefusal::Want
    }
}

impl fmt::Debug for ScenarioRefusal {
    fn fmt<W: fmt::Write>(&self, f: &mut fmt::Formatter<W>) -> fmt::Result {
        write!(f, "{self}")
    }
}
