ghost use Rattle.std.specs.Prelude.{◌≡◌, ◌+◌, ◌<◌, ◌≤◌, ◌++◌, ◌∷◌, [], true, Some, List, IfOk, OnOk, IsErrOf};
ghost use Rattle.std.specs.List.{list_all};
ghost use Rattle.outside.specs.Faults.{HasRisen};
ghost use Rattle.outside.specs.Keepers.{KeepCounts, lists_of};
ghost use Rattle.scenario_file.specs.Reading.{contents};
ghost use Rattle.scenario_file.specs.Valid.{IsScenario};
ghost use Rattle.history_rules.specs.Events.{Entry as HistoryEntry};
ghost use Rattle.history_rules.specs.Setup.{stands};
ghost use Rattle.world_rules.specs.Scenarios.{setup_of, group_in};
ghost use Rattle.history_laws.specs.BenchLists.{AddsEntry};
ghost use Rattle.bench_rules.specs.Lists.{frames_after};
ghost use Rattle.world_history.specs.State.{setup_in};
ghost use Rattle.entry_texts.specs.Texts.{kept_text};
ghost use Rattle.entry_texts.specs.Fits.{FitsEntry};
ghost use Rattle.world_history.specs.Lists.{texts_of, IsKeptList, AreKept, TellsList, ComesNext, replayed, frames_of_last};

use crate::Bench;
use entry_texts::read_kept;
use message_types::Frame;
use outside::{KeepAnswer, Keeper};
use plain_lists::Want;
use scenario_file::Scenario;
use std::alloc::Global;

// Adds the entry that was kept as these bytes, and gives its frames.
fn replay_one(alloc: Global, bench: &mut Bench, bytes: &[u8]) -> Result<Vec<Frame>, Want>
    requires { ComesNext bench.old bytes.now }
    ensures entry { OnOk result ((e : HistoryEntry) → FitsEntry e.stamp e.event → AddsEntry (setup_in bench.old) bench.old.actor bench.old.list e
        → bytes.now ≡ kept_text e → bench.new ≡ record bench.old { list = bench.old.list ++ e ∷ [] }) }
    ensures frames { IfOk result (λ frames. (e : HistoryEntry) → FitsEntry e.stamp e.event → AddsEntry (setup_in bench.old) bench.old.actor bench.old.list e
        → bytes.now ≡ kept_text e → frames.items ≡ frames_after (setup_in bench.old) bench.old.actor bench.old.list e) }
    ensures stand { IfOk result (λ frames. list_all (stands (setup_in bench.old)) frames.items ≡ true) }
{
    let (stamp, event) = read_kept(alloc, bytes)?;
    bench.act(stamp, event)
}

/// The actor that did what is kept, and the frames of its last entry.
pub(crate) fn replay(
    alloc: Global,
    scenario: &Scenario,
    actor: u32,
    kept: &[Vec<u8>],
) -> Result<(Bench, Vec<Frame>), Want>
    requires valid { IsScenario (contents scenario.now) }
    requires there { actor < (group_in (contents scenario.now)).n + (group_in (contents scenario.now)).clients }
    requires kept { AreKept (contents scenario.now) actor (lists_of kept.now) }
    ensures bench { IfOk result (λ r. (list : List HistoryEntry) → IsKeptList (contents scenario.now) actor list → lists_of kept.now ≡ texts_of list
        → r.0 ≡ replayed (contents scenario.now) actor list) }
    ensures frames { IfOk result (λ r. (list : List HistoryEntry) → IsKeptList (contents scenario.now) actor list → lists_of kept.now ≡ texts_of list
        → r.1.items ≡ frames_of_last (setup_of (contents scenario.now)) actor list) }
    ensures stand { IfOk result (λ r. list_all (stands (setup_of (contents scenario.now))) r.1.items ≡ true) }
{
    let mut bench = Bench::make(alloc, scenario, actor)?;
    let mut frames = Vec::new(alloc);
    for bytes in kept {
        frames = replay_one(alloc, &mut bench, bytes.as_slice())?;
    }
    Ok((bench, frames))
}

/// An actor made anew from what its keeper has of it, and nothing else, with the frames of its last entry. It fails only where
/// the keeper had a fault. What is kept stays as it is.
pub fn revive<K: Keeper>(
    alloc: Global,
    scenario: &Scenario,
    actor: u32,
    keeper: &mut K,
) -> Result<(Bench, Vec<Frame>), KeepAnswer>
    requires valid { IsScenario (contents scenario.now) }
    requires there { actor < (group_in (contents scenario.now)).n + (group_in (contents scenario.now)).clients }
    requires told { TellsList (contents scenario.now) actor (K.kept keeper.old) }
    ensures bench { IfOk result (λ r. (list : List HistoryEntry) → IsKeptList (contents scenario.now) actor list → K.kept keeper.old ≡ Some (texts_of list)
        → r.0 ≡ replayed (contents scenario.now) actor list) }
    ensures frames { IfOk result (λ r. (list : List HistoryEntry) → IsKeptList (contents scenario.now) actor list → K.kept keeper.old ≡ Some (texts_of list)
        → r.1.items ≡ frames_of_last (setup_of (contents scenario.now)) actor list) }
    ensures stand { IfOk result (λ r. list_all (stands (setup_of (contents scenario.now))) r.1.items ≡ true) }
    ensures unchanged { K.kept keeper.new ≡ K.kept keeper.old }
    ensures never_falls { K.faults keeper.old ≤ K.faults keeper.new }
    ensures failed { IsErrOf result KeepAnswer.Failed → HasRisen (K.faults keeper.old) (K.faults keeper.new) }
    ensures counted { KeepCounts result (K.faults keeper.old) (K.faults keeper.new) }
{
    let kept = keeper.entries()?;
    match replay(alloc, scenario, actor, &kept) {
        Ok(revived) => Ok(revived),
        Err(Want) => Err(KeepAnswer::Want),
    }
}
