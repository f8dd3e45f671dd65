//! A text rebuilt from a text of parts.
ghost use Rattle.std.specs.Prelude.{◌≡◌, Ok, IfOk, IfErr};
ghost use Rattle.scenario_file.specs.Reading.{contents};
ghost use Rattle.part_lines.specs.Rebuilding.{RefusesText, rebuilt_in};

use crate::fault::RebuildRefusal;
use crate::printing::text_of;
use crate::told::read_told;
use parity_parts::{RebuildAnswer, rebuild};
use scenario_file::Scenario;
use std::alloc::Global;

/// What is printed for a text of parts in a scenario: the text of its digest that some f + 1 of its parts join to, and the
/// masters whose parts aren't that text's.
#[tactic(auto, unfolding(crate::specs::Rebuilding::rebuilt_in, crate::specs::Rebuilding::told_for))]
pub fn rebuilt_text(
    alloc: Global,
    scenario: &Scenario,
    bytes: &[u8],
) -> Result<Vec<u8>, RebuildRefusal>
    ensures text { IfOk result (λ text. rebuilt_in (contents scenario.now) bytes.now ≡ Ok text.items) }
    ensures fault { IfErr result (λ fault. RefusesText fault (rebuilt_in (contents scenario.now) bytes.now)) }
{
    let told = read_told(alloc, &scenario.sizes, bytes)?;
    match rebuild(alloc, &scenario.sizes, &told.digest, told.parts.as_slice()) {
        Ok(made) => Ok(text_of(alloc, &made)?),
        Err(RebuildAnswer::NoText) => Err(RebuildRefusal::NoText),
        Err(RebuildAnswer::Want) => Err(RebuildRefusal::Want),
    }
}
