//! What the tests ask before they call.
ghost use Rattle.std.specs.Prelude.{◌≡◌, ◌+◌, ◌<◌, map, nat_lt, IsTrue};
ghost use Rattle.std.specs.List.{list_all};
ghost use Rattle.scenario_file.specs.Reading.{contents};
ghost use Rattle.scenario_file.specs.Valid.{IsScenario};
ghost use Rattle.world_entries.specs.Entries.{entry_of};
ghost use Rattle.world_rules.specs.Scenarios.{group_in};

use scenario_file::Scenario;
use world_history::Entry;

/// Whether the scenario has the actor.
pub(crate) fn has_actor(scenario: &Scenario, actor: u32) -> bool
    requires { IsScenario (contents scenario.now) }
    ensures { IsTrue result → actor < (group_in (contents scenario.now)).n + (group_in (contents scenario.now)).clients }
{
    let cast = scenario.cast();
    u64::from(actor) < u64::from(cast.masters) + u64::from(cast.proxies) + u64::from(cast.screens)
}

/// Whether the stamp is above all of the list.
pub(crate) fn is_later(list: &[Entry], stamp: u64) -> bool
    ensures { result ≡ list_all (λ e. nat_lt e.stamp stamp) (map entry_of list.now) }
{
    list.iter().all(|entry| entry.stamp < stamp)
}
