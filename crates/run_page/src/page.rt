//! The page of a run.
ghost use Rattle.std.specs.Prelude.{◌≡◌, ◌<◌, ◌^◌, length, IfOk};
ghost use Rattle.scenario_file.specs.Reading.{contents};
ghost use Rattle.scenario_file.specs.Valid.{IsScenario};
ghost use Rattle.history_rules.specs.Legal.{IsLegal};
ghost use Rattle.world_rules.specs.Scenarios.{setup_of};
ghost use Rattle.world_history.specs.Benches.{AreBenches};
ghost use Rattle.run_page.specs.Page.{page_in};

use crate::details::details_of;
use crate::plant::plant_text;
use page_text::page_of;
use plain_lists::Want;
use printed_run::write_run_of;
use scenario_file::Scenario;
use std::alloc::Global;
use world_entries::History;
use world_history::Bench;

/// The page of a legal history, of whose actors the benches are at hand: an HTML document that needs nothing else. The history
/// is acted once more.
#[tactic(auto, unfolding(crate::specs::Page::page_in))]
pub fn history_page(
    alloc: Global,
    scenario: &Scenario,
    history: &History,
    benches: &[Bench],
) -> Result<Vec<u8>, Want>
    requires valid { IsScenario (contents scenario.now) }
    requires legal { IsLegal (setup_of (contents scenario.now)) history.now }
    requires short { length history.now < 2 ^ 32 }
    requires benches { AreBenches (contents scenario.now) history.now benches.now }
    ensures { IfOk result (λ page. page.items ≡ page_in (contents scenario.now) history.now) }
{
    let plant = plant_text(alloc, scenario)?;
    let run = write_run_of(alloc, scenario, history, benches)?;
    let details = details_of(alloc, scenario, history)?;
    page_of(alloc, plant.as_bytes(), &run, details.as_bytes())
}
