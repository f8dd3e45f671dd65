//! Why files aren't joined.
ghost use Rattle.std.specs.Prelude.{◌≡◌};
ghost use Rattle.joined_histories.specs.Files.{refusal_of};

use kept_lines::KeptRefusal;
use plain_lists::Want;
use thiserror::Error;

/// Why files aren't joined. Files are counted from 0.
#[derive(Clone, Copy, Debug, PartialEq, Eq, Error)]
pub enum JoinRefusal {
    /// The first file that isn't what a station kept, with its first line that isn't of its form. Lines are counted from 1.
    #[error("file {file}: BadLine {line}")]
    BadLine { file: u64, line: u64 },
    /// The same, with its first entry, from 0, that isn't its actor's next, or can't come after those before it.
    #[error("file {file}: NotLegal {stamp}")]
    NotLegal { file: u64, stamp: u64 },
    /// The same, with its first entry, from 0, at which other words were said than this program says there.
    #[error("file {file}: OtherWords {stamp}")]
    OtherWords { file: u64, stamp: u64 },
    /// The first file whose actor has given one before.
    #[error("file {file}: Twice")]
    Twice { file: u64 },
    #[error("want of memory")]
    Want,
}

impl From<Want> for JoinRefusal {
    ghost use Rattle.std.specs.Prelude.{◌≡◌};
    ghost use Rattle.joined_histories.specs.declared.refusal.JoinRefusal.TheVariants.{Want as WantRefusal};

    ghost from_gives = { λ _ refusal. refusal ≡ WantRefusal };

    fn from(_refused: Want) -> JoinRefusal {
        JoinRefusal::Want
    }
}

/// The refusal of a file.
pub(crate) fn of_file(file: u64, why: KeptRefusal) -> JoinRefusal
    ensures { result ≡ refusal_of file why }
{
    match why {
        KeptRefusal::Want => JoinRefusal::Want,
        KeptRefusal::BadLine { line } => JoinRefusal::BadLine { file, line },
        KeptRefusal::NotLegal { stamp } => JoinRefusal::NotLegal { file, stamp },
        KeptRefusal::OtherWords { stamp } => JoinRefusal::OtherWords { file, stamp },
    }
}
