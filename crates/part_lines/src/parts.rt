//! The line of a part, and that of a digest.
ghost use Rattle.std.specs.Prelude.{◌≡◌, ◌≤◌, ◌-◌, IfOk};
ghost use Rattle.script_grammar.specs.Faults.{Answers};
ghost use Rattle.script_grammar.specs.Lines.{texts};
ghost use Rattle.script_grammar.specs.Numbers.{number_in};
ghost use Rattle.part_lines.specs.Reading.{and_then, bytes_of, digest_of, master_in, fitting, digest_of_words, fields_of_words, digest_in, part_in};

use crate::lines::words_of;
use hex::FromHex;
use parity_parts::{MOST_TEXT_BYTES, Part, width_of};
use plain_lists::Bytes;
use quorum_sets::Sizes;
use script_grammar::{LineRefusal, both, number};
use std::alloc::Global;

/// Bytes as two hex digits each.
#[tactic(auto, unfolding(crate::specs::Reading::bytes_of))]
fn bytes(alloc: Global, digits: &str) -> Result<Bytes, LineRefusal>
    ensures { Answers result (bytes_of digits.now) }
{
    match hex::decode(alloc, digits) {
        Ok(bytes) => Ok(Bytes::from_vec(alloc, bytes)?),
        Err(hex::FromHexError::OutOfMemory) => Err(LineRefusal::Want),
        Err(_) => Err(LineRefusal::BadLine),
    }
}

/// The 32 bytes of a digest, as two hex digits each.
#[tactic(auto, unfolding(crate::specs::Reading::digest_of))]
fn digest(digits: &str) -> Result<[u8; 32], LineRefusal>
    ensures { Answers result (digest_of digits.now) }
{
    match <[u8; 32] as FromHex>::from_hex(digits) {
        Ok(digest) => Ok(digest),
        Err(_) => Err(LineRefusal::BadLine),
    }
}

/// A number below `n`.
fn number_below(digits: &str, n: u32) -> Result<u32, LineRefusal>
    requires { 1 ≤ n }
    ensures { Answers result (number_in 0 (n - 1) digits.now) }
{
    match number(digits, 0, u64::from(n - 1)) {
        Ok(number) => Ok(number as u32),
        Err(fault) => Err(fault),
    }
}

/// A master of the group by its name.
#[tactic(auto, unfolding(crate::specs::Reading::master_in))]
fn master(sizes: &Sizes, name: &str) -> Result<u32, LineRefusal>
    ensures { Answers result (master_in sizes.now.n name.now) }
{
    match name.strip_prefix('m') {
        Some(digits) => number_below(digits, sizes.n),
        None => Err(LineRefusal::BadLine),
    }
}

/// How long a text is.
fn size(digits: &str) -> Result<u32, LineRefusal>
    ensures { Answers result (number_in 1 MOST_TEXT_BYTES digits.now) }
{
    match number(digits, 1, MOST_TEXT_BYTES) {
        Ok(number) => Ok(number as u32),
        Err(fault) => Err(fault),
    }
}

/// The fields of a part: its master, the length of its text, and its bytes.
fn fields(alloc: Global, sizes: &Sizes, words: &[&str]) -> Result<(u32, (u32, Bytes)), LineRefusal>
    ensures fields { Answers result (fields_of_words sizes.now.n (texts words.now)) }
    ensures room { IfOk result (λ fields. fields.1.0 ≤ MOST_TEXT_BYTES) }
{
    match words {
        [name, digits, text] => both(master(sizes, name), both(size(digits), bytes(alloc, text))),
        _ => Err(LineRefusal::BadLine),
    }
}

/// The part that a line gives.
#[tactic(auto, unfolding(crate::specs::Reading::part_in))]
pub(crate) fn read_part(alloc: Global, sizes: &Sizes, line: &[u8]) -> Result<Part, LineRefusal>
    ensures { Answers result (part_in sizes.now.n sizes.now.f line.now) }
{
    let words = words_of(alloc, line)?;
    let (master, (length, bytes)) = fields(alloc, sizes, words.as_slice())?;
    if bytes.len() != width_of(sizes, length as usize) {
        return Err(LineRefusal::BadLine);
    }
    Ok(Part {
        master,
        length,
        bytes,
    })
}

fn digest_of_words(words: &[&str]) -> Result<[u8; 32], LineRefusal>
    ensures { Answers result (digest_of_words (texts words.now)) }
{
    match words {
        [name, digits] if *name == "digest" => digest(digits),
        _ => Err(LineRefusal::BadLine),
    }
}

/// The digest that a line gives.
#[tactic(auto, unfolding(crate::specs::Reading::digest_in))]
pub(crate) fn read_digest(alloc: Global, line: &[u8]) -> Result<[u8; 32], LineRefusal>
    ensures { Answers result (digest_in line.now) }
{
    let words = words_of(alloc, line)?;
    digest_of_words(words.as_slice())
}
