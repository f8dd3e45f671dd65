//! The chart that can be asked for.
ghost use Rattle.std.specs.Prelude.{◌≡◌, ◌<◌, ◌^◌, length, IfOk};
ghost use Rattle.scenario_file.specs.Reading.{contents};
ghost use Rattle.scenario_file.specs.Valid.{IsScenario};
ghost use Rattle.history_rules.specs.Legal.{IsLegal};
ghost use Rattle.world_rules.specs.Scenarios.{setup_of};
ghost use Rattle.history_picture.specs.Pictures.{chart_in};

use axis_pictures::{Frame, chart_of};
use delay_times::delays_of;
use plain_lists::Want;
use run_questions::delays::watched_in;
use scenario_file::Scenario;
use std::alloc::Global;
use world_entries::History;

/// How long the updates of a legal history took, so many pixels wide. The history is acted once more.
#[tactic(auto, unfolding(crate::specs::Pictures::chart_in))]
pub fn delays_chart(
    alloc: Global,
    scenario: &Scenario,
    history: &History,
    width: u32,
) -> Result<Vec<u8>, Want>
    requires valid { IsScenario (contents scenario.now) }
    requires legal { IsLegal (setup_of (contents scenario.now)) history.now }
    requires short { length history.now < 2 ^ 32 }
    ensures { IfOk result (λ text. text.items ≡ chart_in (contents scenario.now) history.now width) }
{
    let watched = watched_in(alloc, scenario, history)?;
    let delays = delays_of(alloc, &watched)?;
    let frame = Frame {
        width: u64::from(width),
        count: history.len() as u64,
    };
    let text = chart_of(alloc, frame, scenario.cast().masters, &delays)?;
    Ok(text.into_bytes())
}
