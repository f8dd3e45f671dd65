//! A ring of public keys, read.
ghost use Rattle.std.specs.Prelude.{◌≡◌, ◌≤◌, ◌++◌, ◌∷◌, [], IfOk};
ghost use Rattle.std.specs.Option.{MatchOption};
ghost use Rattle.scenario_file.specs.Actors.{actors_of};
ghost use Rattle.scenario_file.specs.declared.actors.TheConstants.{MOST_ACTORS};
ghost use Rattle.command_files.specs.Keys.{AnswersRing, Cuts, HasNoLine, HasNotLine, ring_line};

use crate::fault::KeyFault;
use crate::lines::put_ring_line;
use crate::pieces::{behind, piece};
use hex::FromHex;
use plain_lists::{Items, Want};
use scenario_file::Cast;
use std::alloc::Global;

/// The public keys of a ring: a line for each actor, in the order of their numbers, and nothing else. Its fault is `BadLine`, at
/// the first line that isn't its actor's, or want of memory.
pub fn read_ring(alloc: Global, cast: Cast, text: &[u8]) -> Result<Items<[u8; 60]>, KeyFault>
    requires { actors_of cast ≤ MOST_ACTORS }
    ensures { AnswersRing cast text.now result }
{
    let mut ring = Items::new(alloc);
    let mut rest = text;
    for actor in 0..cast.actors() {
        let name = cast.name(alloc, actor)?;
        match cut_line(alloc, name.as_str(), rest, &mut ring)? {
            Some(after) => rest = after,
            None => {
                return Err(KeyFault::BadLine {
                    line: u64::from(actor) + 1,
                });
            }
        }
    }
    if rest.is_empty() {
        Ok(ring)
    } else {
        Err(KeyFault::BadLine {
            line: u64::from(cast.actors()) + 1,
        })
    }
}

// Adds the public key of the line of this name that a text begins with, and gives what follows.
fn cut_line<'a>(
    alloc: Global,
    name: &str,
    text: &'a [u8],
    ring: &mut Items<[u8; 60]>,
) -> Result<Option<&'a [u8]>, Want>
    ensures { IfOk result (λ cut. MatchOption cut (HasNoLine name.now text.now) (λ after. Cuts name.now text.now ring.old ring.new after.now)) }
{
    match <[u8; 60] as FromHex>::from_hex(piece(text, name.len() + 1, 120)) {
        Ok(public) => cut_public(alloc, name, public, text, ring),
        Err(_) => Ok(None),
    }
}

// The same, of this public key alone.
fn cut_public<'a>(
    alloc: Global,
    name: &str,
    public: [u8; 60],
    text: &'a [u8],
    ring: &mut Items<[u8; 60]>,
) -> Result<Option<&'a [u8]>, Want>
    ensures { IfOk result (λ cut. MatchOption cut (HasNotLine name.now public text.now) (λ after. (ring.new ≡ ring.old ++ public ∷ []) × (text.now ≡ ring_line name.now public ++ after.now))) }
{
    let mut line = String::new(alloc);
    put_ring_line(alloc, &mut line, name, &public)?;
    match behind(text, line.as_bytes()) {
        Some(after) => {
            ring.push(public)?;
            Ok(Some(after))
        }
        None => Ok(None),
    }
}
