//! A history watched: it is acted once more, and each actor is looked at before and after its entry.
ghost use Rattle.std.specs.Prelude.{◌≡◌, ◌<◌, ◌^◌, ◌++◌, ◌∷◌, [], if◌then◌else◌, length, true, false, nat_lt, option_to_list, IfOk, OnOk};
ghost use Rattle.std.specs.List.{list_all};
ghost use Rattle.quorum_sets.specs.Masters.{has_master};
ghost use Rattle.scenario_file.specs.Reading.{contents};
ghost use Rattle.scenario_file.specs.Valid.{IsScenario};
ghost use Rattle.history_rules.specs.Legal.{IsLegal, TakesWell};
ghost use Rattle.world_entries.specs.Entries.{event_of, entry_of};
ghost use Rattle.world_rules.specs.Scenarios.{setup_of};
ghost use Rattle.world_history.specs.State.{setup_in, with_entry};
ghost use Rattle.run_questions.specs.DelaysText.{happened_at, happened_in, watched_in};
ghost use Rattle.run_questions.specs.TrendAnswers.{correct_masters};

use crate::delays::happened::{Came, add_happened};
use delay_times::{Happening, Watched};
use plain_lists::{Copied, Items, Want, extend_option};
use scenario_file::Scenario;
use std::alloc::Global;
use world_entries::{Entry, History};
use world_history::{Bench, all_benches};

/// A legal history as far as delays go by it. It is acted once more.
#[tactic(auto, unfolding(crate::specs::DelaysText::watched_in))]
pub fn watched_in(alloc: Global, scenario: &Scenario, history: &History) -> Result<Watched, Want>
    requires valid { IsScenario (contents scenario.now) }
    requires legal { IsLegal (setup_of (contents scenario.now)) history.now }
    requires short { length history.now < 2 ^ 32 }
    ensures { IfOk result (λ watched. watched ≡ watched_in (contents scenario.now) history.now) }
{
    let masters = correct_masters(alloc, scenario)?;
    let happened = happened_in(alloc, scenario, history)?;
    Ok(Watched {
        cast: scenario.cast(),
        entries: history.len() as u64,
        masters: Items::from_vec(alloc, masters),
        happenings: Items::from_vec(alloc, happened),
    })
}

/// The correct masters, rising.
fn correct_masters(alloc: Global, scenario: &Scenario) -> Result<Vec<u32>, Want>
    ensures { IfOk result (λ masters. masters.items ≡ correct_masters (setup_of (contents scenario.now))) }
{
    let mut masters = Vec::new(alloc);
    for master in 0..scenario.sizes.n {
        extend_option(&mut masters, if_correct(scenario, master))?;
    }
    Ok(masters)
}

/// The master, unless it is intruded.
fn if_correct(scenario: &Scenario, master: u32) -> Option<u32>
    ensures { option_to_list result ≡ (if has_master (contents scenario.now).settings.intruded master then [] else master ∷ []) }
{
    if scenario.intruded.has(master) {
        None
    } else {
        Some(master)
    }
}

/// What happened in a legal history.
fn happened_in(
    alloc: Global,
    scenario: &Scenario,
    history: &History,
) -> Result<Vec<Happening>, Want>
    requires valid { IsScenario (contents scenario.now) }
    requires legal { IsLegal (setup_of (contents scenario.now)) history.now }
    requires short { length history.now < 2 ^ 32 }
    ensures { IfOk result (λ happened. happened.items ≡ happened_in (contents scenario.now) history.now) }
{
    let mut benches = all_benches(alloc, scenario)?;
    let mut happened = Vec::new(alloc);
    let entries = history.entries();
    for entry in entries {
        watch(&mut happened, &mut benches[entry.actor as usize], entry)?;
    }
    Ok(happened)
}

/// Has a bench do an entry of its actor, and appends what happened to it there.
fn watch(happened: &mut Vec<Happening>, bench: &mut Bench, entry: &Entry) -> Result<(), Want>
    requires fits { (setup_in bench.old).fits bench.old.actor (event_of entry.now.event) ≡ true }
    requires later { list_all (λ e. nat_lt e.stamp entry.now.stamp) bench.old.list ≡ true }
    requires taken { TakesWell (setup_in bench.old) entry.now.stamp (event_of entry.now.event) }
    requires short { length bench.old.list < 2 ^ 32 }
    requires works { bench.old.is_spent ≡ false }
    ensures bench { OnOk result (bench.new ≡ with_entry bench.old entry.now.stamp (event_of entry.now.event)) }
    ensures happened { OnOk result (happened.new.items ≡ happened.old.items ++ happened_at bench.old bench.new (entry_of entry.now)) }
{
    let came = Came {
        executed: bench.executions().len(),
        shown: bench.board().len(),
        view: bench.view(),
    };
    let event = entry.event.copy()?;
    bench.act(entry.stamp, event)?;
    add_happened(happened, came, bench, entry)
}
