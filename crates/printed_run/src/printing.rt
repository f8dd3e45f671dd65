//! The text of a whole run.
ghost use Rattle.std.specs.Prelude.{◌≡◌, ◌++◌, map, IfOk, OnOk, string_bytes};
ghost use Rattle.std.specs.List.{flat_map};
ghost use Rattle.scenario_file.specs.Reading.{Contents, contents};
ghost use Rattle.scenario_file.specs.Valid.{IsScenario};
ghost use Rattle.history_rules.specs.Legal.{IsLegal};
ghost use Rattle.world_entries.specs.Entries.{entry_of};
ghost use Rattle.world_rules.specs.Scenarios.{setup_of};
ghost use Rattle.history_audit.specs.Counting.{AreFewEach};
ghost use Rattle.printed_run.specs.Places.{IsAtHand};
ghost use Rattle.world_history.specs.Benches.{AreBenches};
ghost use Rattle.printed_run.specs.Printed.{entry_line, totals_text, text_of};
ghost use Rattle.printed_run.specs.Tellable.{AllCanBeTold};

use crate::looking::look_at;
use crate::places::own_places;
use crate::said::AtHand;
use crate::states::put_states;
use history_audit::audit;
use history_audit::laws::{few_each, legal_are_spelled};
use plain_lists::Want;
use run_lines::{put_agree, put_audit, put_count, put_entry};
use scenario_file::Scenario;
use std::alloc::Global;
use world_entries::History;
use world_history::{Bench, agree_benches, replayed};

/// The text of a legal history: what each actor came to, the audit, and the entries. The history is replayed for it.
pub fn write_run(alloc: Global, scenario: &Scenario, history: &History) -> Result<Vec<u8>, Want>
    requires valid { IsScenario (contents scenario.now) }
    requires legal { IsLegal (setup_of (contents scenario.now)) history.now }
    requires few { AreFewEach history.now }
    ensures { IfOk result (λ text. text.items ≡ text_of (contents scenario.now) history.now) }
{
    let benches = replayed(alloc, scenario, history)?;
    write_run_of(alloc, scenario, history, &benches)
}

/// The same where the benches of the history's actors are at hand, be there words that an intruded master signed and hasn't
/// cried, or not. Nothing is replayed.
#[tactic(auto, unfolding(crate::specs::Printed::text_of))]
pub fn write_run_of(
    alloc: Global,
    scenario: &Scenario,
    history: &History,
    benches: &[Bench],
) -> Result<Vec<u8>, Want>
    requires valid { IsScenario (contents scenario.now) }
    requires legal { IsLegal (setup_of (contents scenario.now)) history.now }
    requires few { AreFewEach history.now }
    requires benches { AreBenches (contents scenario.now) history.now benches.now }
    ensures text { IfOk result (λ text. text.items ≡ text_of (contents scenario.now) history.now) }
    // So the text is read again as the history (`printed_laws`).
    ensures told { OnOk result (AllCanBeTold (setup_of (contents scenario.now)) history.now) }
{
    let mut text = String::from_str(alloc, "spire 1\n")?;
    put_states(&mut text, scenario, benches)?;
    put_totals(alloc, &mut text, scenario, history, benches)?;
    put_count(&mut text, history.len() as u64)?;
    put_entries(alloc, &mut text, scenario, history, benches)?;
    Ok(text.into_bytes())
}

/// Appends the counts of the audit, and whether the masters agree.
fn put_totals(
    alloc: Global,
    text: &mut String,
    scenario: &Scenario,
    history: &History,
    benches: &[Bench],
) -> Result<(), Want>
    requires valid { IsScenario (contents scenario.now) }
    requires legal { IsLegal (setup_of (contents scenario.now)) history.now }
    requires few { AreFewEach history.now }
    requires benches { AreBenches (contents scenario.now) history.now benches.now }
    ensures { OnOk result (string_bytes text.new ≡ string_bytes text.old ++ totals_text (setup_of (contents scenario.now)) history.now) }
{
    few_each();
    legal_are_spelled();
    let counts = audit(alloc, scenario, history)?;
    put_audit(
        text,
        counts.forged,
        counts.alike,
        counts.intruded,
        scenario.sizes.f,
    )?;
    put_agree(text, agree_benches(benches))?;
    Ok(())
}

fn put_entries(
    alloc: Global,
    text: &mut String,
    scenario: &Scenario,
    history: &History,
    benches: &[Bench],
) -> Result<(), Want>
    requires valid { IsScenario (contents scenario.now) }
    requires legal { IsLegal (setup_of (contents scenario.now)) history.now }
    requires benches { AreBenches (contents scenario.now) history.now benches.now }
    ensures text { OnOk result (string_bytes text.new ≡ string_bytes text.old ++ flat_map (entry_line (contents scenario.now) history.now) history.now) }
    ensures told { OnOk result (AllCanBeTold (setup_of (contents scenario.now)) history.now) }
{
    let cast = scenario.cast();
    let entries = history.entries();
    let places = own_places(alloc, benches.len(), entries)?;
    let hand = AtHand {
        scenario,
        entries,
        benches,
        places: &places,
    };
    for entry in entries {
        let is_said = hand.is_said(alloc, &entry.event)?;
        look_at(alloc, is_said, entry)?;
        put_entry(alloc, text, cast, is_said, entry)?;
    }
    Ok(())
}
