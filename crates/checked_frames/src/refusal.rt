use plain_lists::Want;
use thiserror::Error;

/// Why a frame doesn't stand: the first of its parts that fails, and the first test that it fails. The frame itself is
/// part 0, and the frames inside it follow in the order of the text, each before those inside it.
#[derive(Clone, Copy, Debug, PartialEq, Eq, Error)]
pub enum CheckRefusal {
    /// There is no actor of this number.
    #[error("there is no actor {signer}")]
    SignerUnknown { signer: u32 },
    /// The signer's key doesn't bear out the signature of the part of this number.
    #[error("part {part} isn't signed by its signer")]
    Unsigned { part: u32 },
    /// The part of this number isn't in its place.
    #[error("part {part} isn't in its place")]
    Misplaced { part: u32 },
    #[error("want of memory")]
    Want,
}

impl From<Want> for CheckRefusal {
    ghost use Rattle.std.specs.Prelude.{◌≡◌};
    ghost use Rattle.checked_frames.specs.declared.refusal.CheckRefusal.TheVariants as refusal;

    ghost from_gives = { λ _ e. e ≡ refusal.Want };

    fn from(_want: Want) -> CheckRefusal {
        CheckRefusal::Want
    }
}
