//! Why there is no trend.
ghost use Rattle.std.specs.Prelude.{◌≡◌};

use plain_lists::Want;
use thiserror::Error;
use trend_archive::TrendAnswer;

/// Why nothing is printed of a point's changes, tried in this order.
#[derive(Clone, Copy, Debug, PartialEq, Eq, Error)]
pub enum TrendRefusal {
    /// The plant has no point of that number.
    #[error("NoPoint")]
    NoPoint,
    /// The first number is 0 or above the last.
    #[error("BadRange")]
    BadRange,
    /// No more than f correct masters executed up to the last number. `executed` is the (f + 1)st greatest number of updates
    /// that a correct master executed, 0 where there are no more than f of them.
    #[error("NotReached {executed}")]
    NotReached { executed: u64 },
    /// No more than f correct masters answer alike.
    #[error("NoMatch")]
    NoMatch,
    #[error("want of memory")]
    Want,
}

impl From<Want> for TrendRefusal {
    ghost use Rattle.std.specs.Prelude.{◌≡◌};
    ghost use Rattle.run_questions.specs.declared.trend.fault.TrendRefusal.TheVariants.{Want as WantFault};

    ghost from_gives = { λ _ fault. fault ≡ WantFault };

    fn from(_refused: Want) -> TrendRefusal {
        TrendRefusal::Want
    }
}

impl From<TrendAnswer> for TrendRefusal {
    ghost use Rattle.std.specs.Prelude.{◌≡◌};
    ghost use Rattle.run_questions.specs.TrendAnswers.{fault_of};

    ghost from_gives = { λ answer fault. fault ≡ fault_of answer };

    fn from(answer: TrendAnswer) -> TrendRefusal {
        match answer {
            TrendAnswer::NoPoint => TrendRefusal::NoPoint,
            TrendAnswer::BadRange => TrendRefusal::BadRange,
            TrendAnswer::NotReached { executed } => TrendRefusal::NotReached { executed },
            TrendAnswer::Want => TrendRefusal::Want,
        }
    }
}
