//! Why the text of a run isn't read.
ghost use Rattle.std.specs.Prelude.{◌≡◌};

use plain_lists::Want;
use thiserror::Error;

/// Why the text of a run isn't read.
#[derive(Clone, Copy, Debug, PartialEq, Eq, Error)]
pub enum HistoryRefusal {
    /// The first line that isn't of its form, or the one past the last line where a line lacks. Lines are counted from 1.
    #[error("BadLine {line}")]
    BadLine { line: u64 },
    /// The first entry, from 0, that can't come after those before it.
    #[error("NotLegal {stamp}")]
    NotLegal { stamp: u64 },
    #[error("want of memory")]
    Want,
}

impl From<Want> for HistoryRefusal {
    ghost use Rattle.std.specs.Prelude.{◌≡◌};
    ghost use Rattle.run_lines.specs.declared.refusal.HistoryRefusal.TheVariants.{Want as WantRefusal};

    ghost from_gives = { λ _ refusal. refusal ≡ WantRefusal };

    fn from(_refused: Want) -> HistoryRefusal {
        HistoryRefusal::Want
    }
}
