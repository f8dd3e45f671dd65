use plain_lists::Want;
use thiserror::Error;

/// Why a text is no ring, or no line of an own key.
#[derive(Clone, Copy, Debug, PartialEq, Eq, Error)]
pub enum KeyFault {
    /// The first line that isn't as it is to be. Lines are counted from 1.
    #[error("BadLine {line}")]
    BadLine { line: u64 },
    #[error("want of memory")]
    Want,
}

impl From<Want> for KeyFault {
    ghost use Rattle.std.specs.Prelude.{◌≡◌};
    ghost use Rattle.command_files.specs.declared.fault.KeyFault.TheVariants.{Want as WantFault};

    ghost from_gives = { λ _ fault. fault ≡ WantFault };

    fn from(_refused: Want) -> KeyFault {
        KeyFault::Want
    }
}
