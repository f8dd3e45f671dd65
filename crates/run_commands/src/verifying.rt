ghost use Rattle.std.specs.Prelude.{◌≡◌, ℕ, List, [], ◌∷◌};
ghost use Rattle.command_ends.specs.Calls.{TextCause, FaultsOfFiles};
ghost use Rattle.run_commands.specs.Verifying.{public_in};
ghost use Rattle.run_commands.specs.Course.{VerifyCourse, VerifyStep};
ghost use Rattle.run_commands.specs.Made.{VerifyMakes};

use crate::verdicts::{VerifyAnswer, read_public, verify_text};
use command_ends::{Refusal, load};
use outside::Files;
use std::alloc::Global;

/// Whether a file's bytes are a signature of another file's, by the public key that hex digits write.
pub fn verify<F: Files>(
    alloc: Global,
    public: &str,
    message: &str,
    signature: &str,
    files: &mut F,
) -> Result<Vec<u8>, Refusal>
    ensures file_faults { FaultsOfFiles result (F.faults files.old) (F.faults files.new) }
    ensures cause { TextCause (VerifyCourse (public_in public.now) message.now signature.now) (F.held files.old) (F.faults files.old) (F.faults files.new) [] result }
{
    match read_public(public) {
        Some(public) => verify_message(alloc, &public, message, signature, files),
        None => Err(Refusal::Usage),
    }
}

fn verify_message<F: Files>(
    alloc: Global,
    public: &[u8],
    message: &str,
    signature: &str,
    files: &mut F,
) -> Result<Vec<u8>, Refusal>
    ensures file_faults { FaultsOfFiles result (F.faults files.old) (F.faults files.new) }
    ensures cause { TextCause (VerifyStep public.now message.now signature.now) (F.held files.old) (F.faults files.old) (F.faults files.new) [] result }
{
    match load(alloc, message, files) {
        Ok(message) => verify_signature(alloc, public, message.as_slice(), signature, files),
        Err(refusal) => Err(refusal),
    }
}

// The same, with the message loaded.
fn verify_signature<F: Files>(
    alloc: Global,
    public: &[u8],
    message: &[u8],
    signature: &str,
    files: &mut F,
) -> Result<Vec<u8>, Refusal>
    ensures file_faults { FaultsOfFiles result (F.faults files.old) (F.faults files.new) }
    ensures cause { (named : List ℕ) → TextCause (VerifyStep public.now named signature.now) (F.held files.old) (F.faults files.old) (F.faults files.new) (message.now ∷ []) result }
{
    match load(alloc, signature, files) {
        Ok(signature) => verified(alloc, public, message, signature.as_slice()),
        Err(refusal) => Err(refusal),
    }
}

fn verified(
    alloc: Global,
    public: &[u8],
    message: &[u8],
    signature: &[u8],
) -> Result<Vec<u8>, Refusal>
    ensures { VerifyMakes public.now message.now signature.now result }
{
    match verify_text(alloc, public, message, signature) {
        Ok(text) => Ok(text.into_bytes()),
        Err(VerifyAnswer::NotVerified) => Err(Refusal::NotVerified),
        Err(VerifyAnswer::Want) => Err(Refusal::Memory),
    }
}
