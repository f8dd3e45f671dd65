//! Why what was kept isn't read.
ghost use Rattle.std.specs.Prelude.{◌≡◌};
ghost use Rattle.kept_lines.specs.Reading.{fault_at};

use plain_lists::Want;
use script_grammar::LineRefusal;
use thiserror::Error;

/// Why what an actor kept isn't read.
#[derive(Clone, Copy, Debug, PartialEq, Eq, Error)]
pub enum KeptRefusal {
    /// The first line that isn't of its form. Lines are counted from 1.
    #[error("BadLine {line}")]
    BadLine { line: u64 },
    /// The first entry, from 0, that isn't the next of the actor, or can't come after those before it.
    #[error("NotLegal {stamp}")]
    NotLegal { stamp: u64 },
    /// The first entry whose line isn't the one that this program keeps of it: other words were said there.
    #[error("OtherWords {stamp}")]
    OtherWords { stamp: u64 },
    #[error("want of memory")]
    Want,
}

impl From<Want> for KeptRefusal {
    ghost use Rattle.std.specs.Prelude.{◌≡◌};
    ghost use Rattle.kept_lines.specs.declared.refusal.KeptRefusal.TheVariants.{Want as WantRefusal};

    ghost from_gives = { λ _ refusal. refusal ≡ WantRefusal };

    fn from(_refused: Want) -> KeptRefusal {
        KeptRefusal::Want
    }
}

/// The refusal of the line of this number.
pub(crate) fn at(fault: LineRefusal, line: u64) -> KeptRefusal
    ensures { result ≡ fault_at line fault }
{
    match fault {
        LineRefusal::Want => KeptRefusal::Want,
        LineRefusal::BadLine | LineRefusal::NoActor => KeptRefusal::BadLine { line },
    }
}
