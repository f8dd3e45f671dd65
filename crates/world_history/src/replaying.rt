//! A history replayed on new benches.
ghost use Rattle.std.specs.Prelude.{◌≡◌, [], IfOk};
ghost use Rattle.scenario_file.specs.Reading.{contents};
ghost use Rattle.scenario_file.specs.Valid.{IsScenario};
ghost use Rattle.history_rules.specs.Legal.{IsLegal};
ghost use Rattle.world_rules.specs.Scenarios.{setup_of};
ghost use Rattle.history_audit.specs.Counting.{AreFewEach};
ghost use Rattle.world_history.specs.Benches.{benches_of};

use crate::Bench;
use plain_lists::{Copied, Want};
use scenario_file::Scenario;
use std::alloc::Global;
use world_entries::History;

/// One bench for each actor of a scenario, in the order of their numbers, before their first events.
pub fn all_benches(alloc: Global, scenario: &Scenario) -> Result<Vec<Bench>, Want>
    requires { IsScenario (contents scenario.now) }
    ensures { IfOk result (λ benches. benches.items ≡ benches_of (contents scenario.now) []) }
{
    let actors = scenario.cast().actors();
    let mut benches = Vec::with_capacity(alloc, actors as usize)?;
    for actor in 0..actors {
        benches.push(Bench::make(alloc, scenario, actor)?)?;
    }
    Ok(benches)
}

/// One bench for each actor of a scenario, in the order of their numbers, each with the actor's own entries of the history.
pub fn replayed(alloc: Global, scenario: &Scenario, history: &History) -> Result<Vec<Bench>, Want>
    requires valid { IsScenario (contents scenario.now) }
    requires legal { IsLegal (setup_of (contents scenario.now)) history.now }
    requires few { AreFewEach history.now }
    ensures { IfOk result (λ benches. benches.items ≡ benches_of (contents scenario.now) history.now) }
{
    let mut benches = all_benches(alloc, scenario)?;
    let entries = history.entries();
    for entry in entries {
        let event = entry.event.copy()?;
        benches[entry.actor as usize].act(entry.stamp, event)?;
    }
    Ok(benches)
}
