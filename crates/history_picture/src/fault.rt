use plain_lists::Want;
use thiserror::Error;

/// Why there is no picture.
#[derive(Clone, Copy, Debug, PartialEq, Eq, Error)]
pub enum PictureRefusal {
    /// The range ends before it begins.
    #[error("BadRange")]
    BadRange,
    /// The range goes beyond the history, whose last stamp is this one, 0 where it has no entry.
    #[error("NotReached {last}")]
    NotReached { last: u64 },
    /// The plant has no point of that number.
    #[error("NoPoint")]
    NoPoint,
    #[error("want of memory")]
    Want,
}

impl From<Want> for PictureRefusal {
    ghost use Rattle.std.specs.Prelude.{◌≡◌};
    ghost use Rattle.history_picture.specs.declared.fault.PictureRefusal.TheVariants.{Want as WantFault};

    ghost from_gives = { λ _ fault. fault ≡ WantFault };

    fn from(_refused: Want) -> PictureRefusal {
        PictureRefusal::Want
    }
}
