//! The text of an update in parts.
ghost use Rattle.std.specs.Prelude.{◌≡◌, ◌≢◌, ◌<◌, ◌≤◌, ◌++◌, ℕ, List, Some, None, Err, IfOk, OnOk, length, option_copied, string_bytes};
ghost use Rattle.std.specs.List.{flat_map};
ghost use Rattle.message_types.specs.Texts.{update_text};
ghost use Rattle.scenario_file.specs.Reading.{Contents, contents};
ghost use Rattle.history_rules.specs.Events.{Entry};
ghost use Rattle.world_rules.specs.Scenarios.{masters_in, setup_of};
ghost use Rattle.world_history.specs.Benches.{AreBenches};
ghost use Rattle.part_lines.specs.Laws.{own_part};
ghost use Rattle.part_lines.specs.Texts.{part_words, line_of};
ghost use Rattle.run_questions.specs.PartsText.{part_if, parts_by, parts_in};
ghost use Rattle.run_questions.specs.declared.parts.text.PartsRefusal.TheVariants.{NotCertified};

use crate::parts::certified::{Request, certified_by, first_certified};
use message_forms::word_text;
use message_types::{Update, update_digest};
use parity_parts::part_of;
use part_lines::{put_digest, put_part};
use plain_lists::Want;
use quorum_sets::Sizes;
use scenario_file::Scenario;
use std::alloc::Global;
use thiserror::Error;
use world_history::Bench;

/// Why there is no text of parts.
#[derive(Clone, Copy, Debug, PartialEq, Eq, Error)]
pub enum PartsRefusal {
    /// No correct master has the request certified.
    #[error("NotCertified")]
    NotCertified,
    #[error("want of memory")]
    Want,
}

impl From<Want> for PartsRefusal {
    ghost use Rattle.std.specs.Prelude.{◌≡◌};
    ghost use Rattle.run_questions.specs.declared.parts.text.PartsRefusal.TheVariants.{Want as WantFault};

    ghost from_gives = { λ _ fault. fault ≡ WantFault };

    fn from(_refused: Want) -> PartsRefusal {
        PartsRefusal::Want
    }
}

/// Appends the line of a master's part of an update's text.
fn put_own(
    alloc: Global,
    text: &mut String,
    sizes: &Sizes,
    master: u32,
    update: &Update,
) -> Result<(), Want>
    requires { master < sizes.now.n }
    ensures { OnOk result (string_bytes text.new ≡ string_bytes text.old ++ line_of (part_words (own_part sizes.now.f (update_text update.now) master))) }
{
    let words = word_text(alloc, update)?;
    let part = part_of(alloc, sizes, master, &words)?;
    put_part(alloc, text, &part)
}

/// The same if there is an update of the digest.
fn put_if(
    alloc: Global,
    text: &mut String,
    sizes: &Sizes,
    digest: &[u8; 32],
    master: u32,
    update: Option<&Update>,
) -> Result<(), Want>
    requires { master < sizes.now.n }
    ensures { OnOk result (string_bytes text.new ≡ string_bytes text.old ++ flat_map (λ part. line_of (part_words part)) (part_if sizes.now.f digest.now master (option_copied update.entry))) }
{
    match update {
        Some(update) if update_digest(update) == *digest => {
            put_own(alloc, text, sizes, master, update)
        }
        _ => Ok(()),
    }
}

/// Appends the lines of the masters that have an update of the digest certified.
fn put_parts(
    alloc: Global,
    text: &mut String,
    sizes: &Sizes,
    benches: &[Bench],
    request: Request,
    digest: &[u8; 32],
) -> Result<(), Want>
    ensures { (c : Contents) (history : List Entry) → AreBenches c history benches.now → sizes.now.n ≡ masters_in c → sizes.now.f ≡ c.settings.f
        → OnOk result (string_bytes text.new ≡ string_bytes text.old ++ flat_map (λ part. line_of (part_words part)) (parts_by (setup_of c) history request.originator request.number digest.now)) }
{
    for master in 0..sizes.n {
        let update = certified_by(benches, master, request);
        put_if(alloc, text, sizes, digest, master, update)?;
    }
    Ok(())
}

/// For a request, by its originator and its number, that correct masters have certified at the end of their lists: the digest of
/// the least such master's update, and per master with an update of that digest its part of the update's text.
#[tactic(auto, unfolding(crate::specs::PartsText::parts_in))]
pub fn parts_text(
    alloc: Global,
    scenario: &Scenario,
    benches: &[Bench],
    originator: u32,
    number: u32,
) -> Result<Vec<u8>, PartsRefusal>
    ensures text { (history : List Entry) → AreBenches (contents scenario.now) history benches.now
        → IfOk result (λ text. parts_in (contents scenario.now) history originator number ≡ Some text.items) }
    ensures none { (history : List Entry) → AreBenches (contents scenario.now) history benches.now
        → result ≡ Err NotCertified → parts_in (contents scenario.now) history originator number ≡ None }
{
    let request = Request {
        originator,
        number: u64::from(number),
    };
    let Some(update) = first_certified(benches, scenario.sizes.n, request) else {
        return Err(PartsRefusal::NotCertified);
    };
    let digest = update_digest(update);
    let mut text = String::new(alloc);
    put_digest(alloc, &mut text, &digest)?;
    put_parts(alloc, &mut text, &scenario.sizes, benches, request, &digest)?;
    Ok(text.into_bytes())
}
