ghost use Rattle.std.specs.Prelude.{◌≡◌};
ghost use Rattle.run_scripts.specs.Playing.{answer_at};

use plain_lists::Want;
use thiserror::Error;

/// Why a script isn't played to its end. Lines are counted from 1.
#[derive(Clone, Copy, Debug, PartialEq, Eq, Error)]
pub enum PlayAnswer {
    /// A frame that the line names, or the next word of its cry, isn't there.
    #[error("NoFrame {line}")]
    NoFrame { line: u64 },
    /// The line asks for entry 50,001.
    #[error("TooMany {line}")]
    TooMany { line: u64 },
    #[error("want of memory")]
    Want,
}

impl From<Want> for PlayAnswer {
    ghost use Rattle.std.specs.Prelude.{◌≡◌};
    ghost use Rattle.run_scripts.specs.declared.answer.PlayAnswer.TheVariants.{Want as WantAnswer};

    ghost from_gives = { λ _ answer. answer ≡ WantAnswer };

    fn from(_refused: Want) -> PlayAnswer {
        PlayAnswer::Want
    }
}

/// Why a line isn't played.
#[derive(Clone, Copy, Debug, PartialEq, Eq)]
pub enum StepRefusal {
    NoFrame,
    TooMany,
    Want,
}

impl From<Want> for StepRefusal {
    ghost use Rattle.std.specs.Prelude.{◌≡◌};
    ghost use Rattle.run_scripts.specs.declared.answer.StepRefusal.TheVariants.{Want as WantStop};

    ghost from_gives = { λ _ stop. stop ≡ WantStop };

    fn from(_refused: Want) -> StepRefusal {
        StepRefusal::Want
    }
}

impl StepRefusal {
    /// The answer of a play that stops at the line of that number.
    pub(crate) fn at(self, line: u64) -> PlayAnswer
        ensures { result ≡ answer_at line self }
    {
        match self {
            StepRefusal::NoFrame => PlayAnswer::NoFrame { line },
            StepRefusal::TooMany => PlayAnswer::TooMany { line },
            StepRefusal::Want => PlayAnswer::Want,
        }
    }
}
