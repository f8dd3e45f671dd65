//! Whether the correct masters of a history agree.
ghost use Rattle.std.specs.Prelude.{◌≡◌, true, IfOk, List};
ghost use Rattle.scenario_file.specs.Reading.{Contents, contents};
ghost use Rattle.scenario_file.specs.Valid.{IsScenario};
ghost use Rattle.history_rules.specs.Events.{Entry};
ghost use Rattle.history_rules.specs.Legal.{IsLegal};
ghost use Rattle.world_rules.specs.Headline.{agrees, Premises};
ghost use Rattle.world_rules.specs.Scenarios.{setup_of};
ghost use Rattle.history_audit.specs.Counting.{AreFewEach};
ghost use Rattle.world_history.specs.Benches.{AreBenches};

use crate::Bench;
use crate::replaying::replayed;
use history_audit::all_prefixes;
use plain_lists::Want;
use scenario_file::Scenario;
use std::alloc::Global;
use world_entries::History;

/// Whether of any two correct masters' executions in the history one begins the other. So it is while at most f masters are
/// intruded, no word is forged and no digest is shared.
pub fn agree(alloc: Global, scenario: &Scenario, history: &History) -> Result<bool, Want>
    requires valid { IsScenario (contents scenario.now) }
    requires legal { IsLegal (setup_of (contents scenario.now)) history.now }
    requires few { AreFewEach history.now }
    ensures relation { IfOk result (λ yes. yes ≡ agrees (setup_of (contents scenario.now)) history.now) }
    ensures allowed { IfOk result (λ yes. Premises (setup_of (contents scenario.now)) history.now → yes ≡ true) }
{
    let benches = replayed(alloc, scenario, history)?;
    Ok(agree_benches(benches.as_slice()))
}

/// The same of the benches of a history that are at hand.
pub fn agree_benches(benches: &[Bench]) -> bool
    ensures relation { (c : Contents) (history : List Entry) → AreBenches c history benches.now → result ≡ agrees (setup_of c) history }
    ensures allowed { (c : Contents) (history : List Entry) → AreBenches c history benches.now → IsScenario c → IsLegal (setup_of c) history
        → Premises (setup_of c) history → result ≡ true }
{
    all_prefixes(benches)
}
