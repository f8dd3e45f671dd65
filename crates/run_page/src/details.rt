//! The details of a history's entries: it is acted once more, and each actor is looked at before and after its entry.
ghost use Rattle.std.specs.Prelude.{◌≡◌, ◌<◌, ◌≤◌, ◌^◌, ◌++◌, length, true, false, nat_lt, IfOk, OnOk, string_bytes};
ghost use Rattle.std.specs.List.{list_all};
ghost use Rattle.scenario_file.specs.Actors.{actors_of};
ghost use Rattle.scenario_file.specs.Reading.{contents};
ghost use Rattle.scenario_file.specs.Valid.{IsScenario};
ghost use Rattle.history_rules.specs.Legal.{IsLegal, TakesWell};
ghost use Rattle.world_entries.specs.Entries.{event_of, entry_of};
ghost use Rattle.world_rules.specs.Scenarios.{setup_of};
ghost use Rattle.world_history.specs.State.{setup_in, with_entry};
ghost use Rattle.run_page.specs.Details.{details_at, details_in};

use crate::came::{Came, put_came};
use crate::said::put_words;
use plain_lists::{Copied, Want};
use scenario_file::{Cast, Scenario};
use std::alloc::Global;
use world_entries::{Entry, History};
use world_history::{Bench, all_benches};

/// The details of a legal history.
pub(crate) fn details_of(
    alloc: Global,
    scenario: &Scenario,
    history: &History,
) -> Result<String, Want>
    requires valid { IsScenario (contents scenario.now) }
    requires legal { IsLegal (setup_of (contents scenario.now)) history.now }
    requires short { length history.now < 2 ^ 32 }
    ensures { IfOk result (λ text. string_bytes text ≡ details_in (contents scenario.now) history.now) }
{
    let cast = scenario.cast();
    let mut benches = all_benches(alloc, scenario)?;
    let mut text = String::new(alloc);
    let entries = history.entries();
    for entry in entries {
        put_details(
            alloc,
            &mut text,
            cast,
            &mut benches[entry.actor as usize],
            entry,
        )?;
    }
    Ok(text)
}

/// Has a bench do an entry of its actor, and appends the details of that entry.
fn put_details(
    alloc: Global,
    text: &mut String,
    cast: Cast,
    bench: &mut Bench,
    entry: &Entry,
) -> Result<(), Want>
    requires few { actors_of cast ≤ 26 }
    requires fits { (setup_in bench.old).fits bench.old.actor (event_of entry.now.event) ≡ true }
    requires later { list_all (λ e. nat_lt e.stamp entry.now.stamp) bench.old.list ≡ true }
    requires taken { TakesWell (setup_in bench.old) entry.now.stamp (event_of entry.now.event) }
    requires short { length bench.old.list < 2 ^ 32 }
    requires works { bench.old.is_spent ≡ false }
    ensures bench { OnOk result (bench.new ≡ with_entry bench.old entry.now.stamp (event_of entry.now.event)) }
    ensures text { OnOk result (string_bytes text.new ≡ string_bytes text.old ++ details_at cast bench.old bench.new (entry_of entry.now)) }
{
    put_words(alloc, text, cast, entry)?;
    let before = Came::of(bench);
    let event = entry.event.copy()?;
    bench.act(entry.stamp, event)?;
    put_came(text, entry.stamp, before, Came::of(bench))
}
