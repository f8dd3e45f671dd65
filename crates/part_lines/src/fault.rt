//! Why no text is rebuilt.
ghost use Rattle.std.specs.Prelude.{◌≡◌};
ghost use Rattle.part_lines.specs.Rebuilding.{fault_at};

use plain_lists::Want;
use script_grammar::LineRefusal;
use thiserror::Error;

/// Why no text is rebuilt from a text of parts.
#[derive(Clone, Copy, Debug, PartialEq, Eq, Error)]
pub enum RebuildRefusal {
    /// The first line that isn't of its form, or whose master doesn't rise. Lines are counted from 1.
    #[error("BadLine {line}")]
    BadLine { line: u64 },
    /// No f + 1 parts of one length join to a text of the digest.
    #[error("NoText")]
    NoText,
    #[error("want of memory")]
    Want,
}

impl From<Want> for RebuildRefusal {
    ghost use Rattle.std.specs.Prelude.{◌≡◌};
    ghost use Rattle.part_lines.specs.declared.fault.RebuildRefusal.TheVariants.{Want as WantFault};

    ghost from_gives = { λ _ fault. fault ≡ WantFault };

    fn from(_refused: Want) -> RebuildRefusal {
        RebuildRefusal::Want
    }
}

/// A fault of the line of this number.
pub(crate) fn at(fault: LineRefusal, line: u64) -> RebuildRefusal
    ensures { result ≡ fault_at line fault }
{
    match fault {
        LineRefusal::Want => RebuildRefusal::Want,
        LineRefusal::BadLine | LineRefusal::NoActor => RebuildRefusal::BadLine { line },
    }
}
