ghost use Rattle.std.specs.Prelude.{◌≡◌};
ghost use Rattle.run_commands.specs.Verifying.{public_in, TellsVerified};

use hash_signatures::verify;
use hex::FromHex;
use std::alloc::{AllocError, Global};
use thiserror::Error;

/// Why there is no text that a signature is verified.
#[derive(Clone, Copy, Debug, PartialEq, Eq, Error)]
pub enum VerifyAnswer {
    #[error("not verified")]
    NotVerified,
    #[error("want of memory")]
    Want,
}

impl From<AllocError> for VerifyAnswer {
    ghost use Rattle.std.specs.Prelude.{◌≡◌};
    ghost use Rattle.run_commands.specs.declared.verdicts.VerifyAnswer.TheVariants.{Want};

    ghost from_gives = { λ _ answer. answer ≡ Want };

    fn from(_refused: AllocError) -> VerifyAnswer {
        VerifyAnswer::Want
    }
}

/// The public key that 120 hex digits write. None of any other text.
#[tactic(auto, unfolding(crate::specs::Verifying::public_in))]
pub fn read_public(text: &str) -> Option<[u8; 60]>
    ensures { result ≡ public_in text.now }
{
    <[u8; 60] as FromHex>::from_hex(text).ok()
}

/// `verified`, where the public key verifies the signature of the message.
pub fn verify_text(
    alloc: Global,
    public: &[u8],
    message: &[u8],
    sig: &[u8],
) -> Result<String, VerifyAnswer>
    ensures { TellsVerified public.now message.now sig.now result }
{
    if !verify(public, message, sig) {
        return Err(VerifyAnswer::NotVerified);
    }
    Ok(String::from_str(alloc, "verified\n")?)
}
