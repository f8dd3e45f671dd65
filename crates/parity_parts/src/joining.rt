//! A text from f + 1 of its parts.
ghost use Rattle.std.specs.Prelude.{◌≡◌, ◌<◌, ◌≤◌, ◌+◌, ℕ, List, IfOk, length, slice_index};
ghost use Rattle.std.specs.List.{All, AllByRecursion};
ghost use Rattle.parity_parts.specs.Parts.{AreBytes, AreDifferent, Fits, IsPartOf, OnlySolution, Solves, first_length, joined, joined_byte, masters, symbols};

use crate::interpolation::interpolate;
use crate::limits::MOST_TEXT_BYTES;
use crate::part::{Part, width_of};
use plain_lists::Want;
use quorum_sets::Sizes;
use std::alloc::Global;

// The byte at a place, and zero past the end.
fn byte_at(bytes: &[u8], place: usize) -> u8
    ensures { result ≡ slice_index bytes.now place }
{
    if place < bytes.len() { bytes[place] } else { 0 }
}

fn masters_of(alloc: Global, parts: &[Part]) -> Result<Vec<u8>, Want>
    requires { All (λ part. part.master < 16) parts.now }
    ensures { IfOk result (λ made. made.items ≡ masters parts.now) }
{
    let mut made = Vec::new(alloc);
    for part in parts {
        made.push(part.master as u8)?;
    }
    Ok(made)
}

fn symbols_of(alloc: Global, parts: &[Part], place: usize) -> Result<Vec<u8>, Want>
    ensures { IfOk result (λ made. made.items ≡ symbols parts.now place) }
{
    let mut made = Vec::new(alloc);
    for part in parts {
        made.push(byte_at(part.bytes.as_slice(), place))?;
    }
    Ok(made)
}

// The byte of the joined text at a place.
fn byte_of(
    alloc: Global,
    points: &[u8],
    parts: &[Part],
    step: usize,
    place: usize,
) -> Result<u8, Want>
    requires points { points.now ≡ masters parts.now }
    requires step { 1 ≤ step }
    ensures { IfOk result (λ byte. byte ≡ joined_byte step parts.now place) }
{
    let symbols = symbols_of(alloc, parts, place % step)?;
    let coefficients = interpolate(alloc, points, symbols.as_slice())?;
    Ok(byte_at(coefficients.as_slice(), place / step))
}

// The text at each place in turn.
#[tactic(auto, using(crate::proofs::Columns::one_more), unfolding(crate::specs::Parts::joined))]
fn joined_text(alloc: Global, sizes: &Sizes, parts: &[Part]) -> Result<Vec<u8>, Want>
    requires count { length parts.now ≡ sizes.now.f + 1 }
    requires small { All (λ part. part.master < 16) parts.now }
    requires some { 1 ≤ first_length parts.now }
    requires room { first_length parts.now ≤ MOST_TEXT_BYTES }
    ensures { IfOk result (λ text. text.items ≡ joined sizes.now.f parts.now) }
{
    let points = masters_of(alloc, parts)?;
    let size = parts[0].length as usize;
    let step = width_of(sizes, size);
    let mut text = Vec::new(alloc);
    for place in 0..size {
        text.push(byte_of(alloc, points.as_slice(), parts, step, place)?)?;
    }
    Ok(text)
}

/// The text of which these are parts: at each place its pieces have the one list of coefficients that gives the parts' bytes.
/// Any f + 1 parts of one text give it back, whichever masters they are of.
pub fn join(alloc: Global, sizes: &Sizes, parts: &[Part]) -> Result<Vec<u8>, Want>
    requires count { length parts.now ≡ sizes.now.f + 1 }
    requires different { AreDifferent (masters parts.now) }
    requires fit { AllByRecursion (Fits sizes.now.n sizes.now.f (first_length parts.now)) parts.now }
    requires some { 1 ≤ first_length parts.now }
    requires room { first_length parts.now ≤ MOST_TEXT_BYTES }
    ensures joined { IfOk result (λ text. text.items ≡ joined sizes.now.f parts.now) }
    ensures solved { (place : ℕ) → Solves parts.now place }
    ensures only { (place : ℕ) → OnlySolution parts.now place }
    ensures own { (whole : List ℕ) → AreBytes whole → AllByRecursion (IsPartOf sizes.now.f whole) parts.now → IfOk result (λ text. text.items ≡ whole) }
{
    joined_text(alloc, sizes, parts)
}
