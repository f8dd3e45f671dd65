ghost use Rattle.std.specs.Prelude.{◌≡◌};

use plain_lists::Want;
use thiserror::Error;

/// Why bytes are no spelling of a frame: the first fault from the front. A place counts from the first byte of
/// the input.
#[derive(Clone, Copy, Debug, PartialEq, Eq, Error)]
pub enum FormRefusal {
    /// Bytes are lacking for the field at this place.
    #[error("the bytes end inside the field at {place}")]
    Short { place: u64 },
    /// A body's fields end here before its length does, or the frame ends before the input.
    #[error("bytes are left at {place}")]
    Trailing { place: u64 },
    /// A kind or a mark stands here that isn't allowed.
    #[error("unknown kind at {place}")]
    UnknownKind { place: u64 },
    /// The length of a list is above what the list may have.
    #[error("the list at {place} is too long")]
    TooMany { place: u64 },
    /// The item of a list that begins here doesn't rise above the one before.
    #[error("the item at {place} is out of order")]
    BadOrder { place: u64 },
    /// The input is too long (place 0), or a body or a signature has too great a length here.
    #[error("the length at {place} is too great")]
    TooLong { place: u64 },
    #[error("want of memory")]
    Want,
}

impl From<Want> for FormRefusal {
    ghost use Rattle.message_forms.specs.declared.refusal.FormRefusal.TheVariants as fault;

    ghost from_gives = { λ _ e. e ≡ fault.Want };

    fn from(_want: Want) -> FormRefusal {
        FormRefusal::Want
    }
}
