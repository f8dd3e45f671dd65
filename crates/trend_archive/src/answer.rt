ghost use Rattle.std.specs.Prelude.{◌≡◌};
ghost use Rattle.trend_archive.specs.Trends.{refusal};

use plain_lists::Want;
use thiserror::Error;

/// Why a question about a point's changes has no answer, tried in this order.
#[derive(Clone, Copy, Debug, PartialEq, Eq, Error)]
pub enum TrendAnswer {
    /// The plant has no point of that number.
    #[error("NoPoint")]
    NoPoint,
    /// The first number is 0 or above the last.
    #[error("BadRange")]
    BadRange,
    /// The last number is above the number of executed updates.
    #[error("NotReached {executed}")]
    NotReached { executed: u64 },
    #[error("want of memory")]
    Want,
}

impl From<Want> for TrendAnswer {
    ghost use Rattle.std.specs.Prelude.{◌≡◌};
    ghost use Rattle.trend_archive.specs.declared.answer.TrendAnswer.TheVariants.{Want as WantAnswer};

    ghost from_gives = { λ _ answer. answer ≡ WantAnswer };

    fn from(_refused: Want) -> TrendAnswer {
        TrendAnswer::Want
    }
}

/// Why a question about so many points after so many executed updates has no answer; None where it has one.
pub fn refusal(
    points: usize,
    executed: u64,
    point: u32,
    first: u64,
    last: u64,
) -> Option<TrendAnswer>
    ensures { result ≡ refusal points executed point first last }
{
    if points <= point as usize {
        return Some(TrendAnswer::NoPoint);
    }
    if first == 0 || last < first {
        return Some(TrendAnswer::BadRange);
    }
    if executed < last {
        return Some(TrendAnswer::NotReached { executed });
    }
    None
}
