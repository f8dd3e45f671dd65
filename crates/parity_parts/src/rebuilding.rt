//! A text from parts of which some may be wrong.
ghost use Rattle.std.specs.Prelude.{◌≡◌, ◌≢◌, ◌<◌, ◌≤◌, ◌+◌, ◌-◌, ◌++◌, ◌∷◌, [], ℕ, List, Err, IfOk, OnOk, length, if◌then◌else◌};
ghost use Rattle.std.specs.List.{AllByRecursion};
ghost use Rattle.std.specs.Option.{MatchOption};
ghost use Rattle.sha2.specs.Sha256.{sha256};
ghost use Rattle.quorum_sets.specs.Masters.{with_master};
ghost use Rattle.parity_parts.specs.Parts.{AreBytes, AreDifferent, is_part_of, masters};
ghost use Rattle.parity_parts.specs.Rebuilding.{CanBePart, HasEnoughOf, IsRebuilt, behind_chosen, first_text, have_one_length, rebuilt, sets, text_of, wrong_masters};
ghost use Rattle.parity_parts.specs.declared.rebuilding.RebuildAnswer.TheVariants.{NoText};

use crate::joining::join;
use crate::limits::MOST_TEXT_BYTES;
use crate::part::{Part, part_of};
use plain_lists::{Bytes, Copied, Want};
use quorum_sets::{MOST_MASTERS, Sizes, VoterSet};
use sha2::{Digest, Sha256};
use std::alloc::Global;
use thiserror::Error;

/// A text, and the masters whose parts aren't that text's.
#[derive(Drop)]
pub struct Rebuilt {
    pub text: Bytes,
    pub wrong: VoterSet,
}

/// Why no text is answered.
#[derive(Clone, Copy, Debug, PartialEq, Eq, Error)]
pub enum RebuildAnswer {
    /// No f + 1 parts of one length join to a text of the digest.
    #[error("NoText")]
    NoText,
    #[error("want of memory")]
    Want,
}

impl From<Want> for RebuildAnswer {
    ghost use Rattle.std.specs.Prelude.{◌≡◌};
    ghost use Rattle.parity_parts.specs.declared.rebuilding.RebuildAnswer.TheVariants.{Want as WantAnswer};

    ghost from_gives = { λ _ answer. answer ≡ WantAnswer };

    fn from(_refused: Want) -> RebuildAnswer {
        RebuildAnswer::Want
    }
}

fn have_one_length(parts: &[Part]) -> bool
    ensures { result ≡ have_one_length parts.now }
{
    match parts {
        [] => true,
        [first, ..] => parts.iter().all(|part| part.length == first.length),
    }
}

// The joined text of a set, where it has the digest.
fn text_of(
    alloc: Global,
    sizes: &Sizes,
    digest: &[u8; 32],
    set: &[Part],
) -> Result<Option<Bytes>, Want>
    requires count { length set.now ≡ sizes.now.f + 1 }
    requires different { AreDifferent (masters set.now) }
    requires parts { AllByRecursion (CanBePart sizes.now.n sizes.now.f) set.now }
    ensures text { IfOk result (λ text. text ≡ text_of sizes.now.f digest.now set.now) }
    ensures length { IfOk result (λ text. MatchOption text (Unit {0}) (λ t. (1 ≤ length t) × (length t ≤ MOST_TEXT_BYTES))) }
{
    if !have_one_length(set) {
        return Ok(None);
    }
    let text = join(alloc, sizes, set)?;
    if Sha256::digest(text.as_slice()) != *digest {
        return Ok(None);
    }
    Ok(Some(Bytes::from_vec(alloc, text)?))
}

fn followed_by(alloc: Global, chosen: &[Part], part: &Part) -> Result<Vec<Part>, Want>
    ensures { IfOk result (λ all. all.items ≡ chosen.now ++ part.now ∷ []) }
{
    let mut all = Vec::new(alloc);
    for other in chosen {
        all.push(other.copy()?)?;
    }
    all.push(part.copy()?)?;
    Ok(all)
}

// The text of the first set of f + 1 parts that has one, among the sets of all the chosen parts and some of the others.
fn search(
    alloc: Global,
    sizes: &Sizes,
    digest: &[u8; 32],
    chosen: &[Part],
    others: &[Part],
) -> Result<Option<Bytes>, Want>
    requires count { length chosen.now ≤ sizes.now.f + 1 }
    requires different { AreDifferent (masters (chosen.now ++ others.now)) }
    requires parts { AllByRecursion (CanBePart sizes.now.n sizes.now.f) (chosen.now ++ others.now) }
    ensures text { IfOk result (λ text. text ≡ first_text sizes.now.f digest.now
        (behind_chosen chosen.now (sets (sizes.now.f + 1 - length chosen.now) others.now))) }
    ensures length { IfOk result (λ text. MatchOption text (Unit {0}) (λ t. (1 ≤ length t) × (length t ≤ MOST_TEXT_BYTES))) }
{
    if chosen.len() > sizes.f as usize {
        return text_of(alloc, sizes, digest, chosen);
    }
    match others {
        [] => Ok(None),
        [first, rest @ ..] => {
            let more = followed_by(alloc, chosen, first)?;
            let text = search(alloc, sizes, digest, more.as_slice(), rest)?;
            match text {
                Some(text) => Ok(Some(text)),
                None => search(alloc, sizes, digest, chosen, rest),
            }
        }
    }
}

fn is_part_of(alloc: Global, sizes: &Sizes, text: &[u8], part: &Part) -> Result<bool, Want>
    requires master { part.now.master < sizes.now.n }
    requires some { 1 ≤ length text.now }
    requires room { length text.now ≤ MOST_TEXT_BYTES }
    ensures { IfOk result (λ is. is ≡ is_part_of sizes.now.f text.now part.now) }
{
    let own = part_of(alloc, sizes, part.master, text)?;
    Ok(part.length == own.length && part.bytes.as_slice() == own.bytes.as_slice())
}

fn add_if(masters: &mut VoterSet, master: u32, is_there: bool)
    requires { master < MOST_MASTERS }
    ensures { masters.new ≡ (if is_there then with_master masters.old master else masters.old) }
{
    if is_there {
        masters.add(master);
    }
}

// The masters whose part isn't that of the text.
fn wrong_masters(
    alloc: Global,
    sizes: &Sizes,
    text: &[u8],
    parts: &[Part],
) -> Result<VoterSet, Want>
    requires parts { AllByRecursion (CanBePart sizes.now.n sizes.now.f) parts.now }
    requires some { 1 ≤ length text.now }
    requires room { length text.now ≤ MOST_TEXT_BYTES }
    ensures { IfOk result (λ wrong. wrong ≡ wrong_masters sizes.now.f text.now parts.now) }
{
    let mut wrong = VoterSet::empty();
    for part in parts {
        let is_right = is_part_of(alloc, sizes, text, part)?;
        add_if(&mut wrong, part.master, !is_right);
    }
    Ok(wrong)
}

/// The text of the first f + 1 parts of one length that join to a text of this digest, and the masters whose parts aren't its.
/// Sets of parts are tried in the order of their first parts, then of their second ones, and so on: where the masters rise,
/// in the order of their masters' lists. `NoText` comes exactly where no set has such a text, so never where f + 1 parts are
/// those of one text of the digest. Nothing is said of two texts of one digest.
pub fn rebuild(
    alloc: Global,
    sizes: &Sizes,
    digest: &[u8; 32],
    parts: &[Part],
) -> Result<Rebuilt, RebuildAnswer>
    requires different { AreDifferent (masters parts.now) }
    requires parts { AllByRecursion (CanBePart sizes.now.n sizes.now.f) parts.now }
    ensures text { IsRebuilt (rebuilt sizes.now.f digest.now parts.now) result }
    ensures digest { IfOk result (λ made. sha256 made.text ≡ digest.now) }
    ensures wrong { IfOk result (λ made. made.wrong ≡ wrong_masters sizes.now.f made.text parts.now) }
    ensures enough { (whole : List ℕ) → AreBytes whole → sha256 whole ≡ digest.now → HasEnoughOf sizes.now.f whole parts.now
        → result ≢ Err NoText }
{
    let text = search(alloc, sizes, digest, &[], parts)?;
    let Some(text) = text else {
        return Err(RebuildAnswer::NoText);
    };
    let wrong = wrong_masters(alloc, sizes, text.as_slice(), parts)?;
    Ok(Rebuilt { text, wrong })
}
