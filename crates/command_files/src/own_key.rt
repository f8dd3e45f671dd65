//! The line of an actor's own key, read.
ghost use Rattle.std.specs.Prelude.{◌≡◌, IfOk, string_bytes};
ghost use Rattle.command_files.specs.Keys.{AnswersLine, AnswersOwnKey, own_line};

use crate::fault::KeyFault;
use crate::lines::put_own_line;
use crate::pieces::piece;
use hex::FromHex;
use plain_lists::Want;
use std::alloc::Global;

/// What an actor's own key is made of (RFC 8554, appendix A and section 5.1).
#[derive(Clone, Copy)]
pub struct OwnKey {
    pub seed: [u8; 32],
    pub identifier: [u8; 16],
}

/// The own key of the actor of a name: its line, and nothing else. The fault of any other text is `BadLine` at line 1, or want of
/// memory.
pub fn read_own_key(alloc: Global, name: &str, text: &[u8]) -> Result<OwnKey, KeyFault>
    ensures { AnswersOwnKey name.now text.now result }
{
    match <[u8; 32] as FromHex>::from_hex(piece(text, name.len() + 1, 64)) {
        Ok(seed) => match <[u8; 16] as FromHex>::from_hex(piece(text, name.len() + 66, 32)) {
            Ok(identifier) => read_line(alloc, name, seed, identifier, text),
            Err(_) => Err(KeyFault::BadLine { line: 1 }),
        },
        Err(_) => Err(KeyFault::BadLine { line: 1 }),
    }
}

// The key of this seed and identifier, where the text is their line.
fn read_line(
    alloc: Global,
    name: &str,
    seed: [u8; 32],
    identifier: [u8; 16],
    text: &[u8],
) -> Result<OwnKey, KeyFault>
    ensures { AnswersLine name.now seed identifier text.now result }
{
    let line = own_line(alloc, name, &seed, &identifier)?;
    if line.as_bytes() == text {
        Ok(OwnKey { seed, identifier })
    } else {
        Err(KeyFault::BadLine { line: 1 })
    }
}

fn own_line(alloc: Global, name: &str, seed: &[u8], identifier: &[u8]) -> Result<String, Want>
    ensures { IfOk result (λ line. string_bytes line ≡ own_line name.now seed.now identifier.now) }
{
    let mut line = String::new(alloc);
    put_own_line(alloc, &mut line, name, seed, identifier)?;
    Ok(line)
}
