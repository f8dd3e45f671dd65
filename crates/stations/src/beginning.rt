//! How a station begins: with what it kept.
ghost use Rattle.std.specs.Prelude.{◌≡◌, ◌↔◌, ◌<◌, Some, length, true, IfOk, IfErr, IfSome, IsSome, OnOk, IsErrOf, option_copied};
ghost use Rattle.outside.specs.Faults.{HasRisen};
ghost use Rattle.outside.specs.declared.files.LoadAnswer.TheVariants.{Failed as LoadFailed};
ghost use Rattle.scenario_file.specs.Reading.{contents};
ghost use Rattle.scenario_file.specs.Valid.{IsScenario};
ghost use Rattle.script_grammar.specs.Faults.{Answers};
ghost use Rattle.script_grammar.specs.Names.{correct_in, is_correct, who_of};
ghost use Rattle.world_rules.specs.Scenarios.{HasKey, actors_in};
ghost use Rattle.printed_history.specs.Reading.{IsBegun, contents_in, known_by};
ghost use Rattle.stations.specs.Beginning.{BeginsWith, HasItsLines, HoldsAll, IsHeldWhole, TellsKey, TellsWant, begun_list, not_loaded, not_read};
ghost use Rattle.stations.specs.Station.{IsReady, list_of};

use crate::station::Station;
use kept_lines::{KeptRefusal, reopen};
use outside::LoadAnswer;
use plain_lists::Want;
use printed_history::SoFar;
use scenario_file::{HeldKeys, Scenario};
use script_grammar::{Company, LineRefusal};
use station_files::KeptFile;
use std::alloc::Global;
use thiserror::Error;

/// How many bytes a file may have to be read again.
pub const MOST_KEPT: u64 = 4_294_967_295;

/// Why a station doesn't begin. Want of memory is `Want`, wherever it was: the others tell of the key or of the file alone.
#[derive(Clone, Copy, Debug, PartialEq, Eq, Error)]
pub enum BeginRefusal {
    /// The key that is held isn't the one that the ring has of the actor. The file wasn't touched.
    #[error("OtherKey")]
    OtherKey,
    #[error("{0}")]
    NotLoaded(LoadAnswer),
    #[error("{0}")]
    NotRead(KeptRefusal),
    #[error("want of memory")]
    Want,
}

/// The number of the correct actor of a name.
pub fn actor_of(alloc: Global, scenario: &Scenario, name: &str) -> Result<u32, LineRefusal>
    requires { IsScenario (contents scenario.now) }
    ensures named { Answers result (correct_in (who_of (contents scenario.now)) name.now) }
    ensures there { IfOk result (λ actor. actor < actors_in (contents scenario.now)) }
    ensures correct { IfOk result (λ actor. is_correct (who_of (contents scenario.now)) actor ≡ true) }
{
    Company::of(alloc, scenario).correct(name)
}

fn not_loaded(refusal: LoadAnswer) -> BeginRefusal
    ensures { result ≡ not_loaded refusal }
{
    match refusal {
        LoadAnswer::Want => BeginRefusal::Want,
        other => BeginRefusal::NotLoaded(other),
    }
}

fn not_read(refusal: KeptRefusal) -> BeginRefusal
    ensures { result ≡ not_read refusal }
{
    match refusal {
        KeptRefusal::Want => BeginRefusal::Want,
        other => BeginRefusal::NotRead(other),
    }
}

/// One actor before its first entry, by the scenario's seed or by the keys that it holds.
fn before_first<'a>(
    alloc: Global,
    scenario: &'a Scenario,
    held: Option<&'a HeldKeys>,
    actor: u32,
) -> Result<Option<SoFar<'a>>, Want>
    requires scenario { IsScenario (contents scenario.now) }
    requires there { actor < actors_in (contents scenario.now) }
    requires ring { IfSome (option_copied held) (λ keys. length keys.ring ≡ actors_in (contents scenario.now)) }
    ensures begun { IfOk result (λ found. IfSome found (IsBegun (known_by scenario.now held.entry) (Some actor))) }
    ensures own { IfOk result (λ found. IsSome found ↔ HasKey (known_by scenario.now held.entry) actor) }
{
    match held {
        Some(keys) => SoFar::hold(alloc, scenario, keys, actor),
        None => Ok(Some(SoFar::begin_one(alloc, scenario, actor)?)),
    }
}

/// The station that a correct actor's file tells: of an actor by the scenario's seed, or of one that holds its key alone. What is
/// torn of the file is cut off, and the rest is durable then.
pub fn begin<'a, F: KeptFile>(
    alloc: Global,
    scenario: &'a Scenario,
    held: Option<&'a HeldKeys>,
    actor: u32,
    file: &mut F,
) -> Result<Station<'a>, BeginRefusal>
    requires scenario { IsScenario (contents scenario.now) }
    requires there { actor < actors_in (contents scenario.now) }
    requires correct { is_correct (who_of (contents scenario.now)) actor ≡ true }
    requires ring { IfSome (option_copied held) (λ keys. length keys.ring ≡ actors_in (contents scenario.now)) }
    ensures ready { IfOk result (λ station. IsReady station) }
    ensures same { IfOk result (λ station. (contents_in station.so_far ≡ known_by scenario.now held.entry) × (station.actor ≡ actor)) }
    ensures key { TellsKey (known_by scenario.now held.entry) actor result }
    ensures untouched { IsErrOf result BeginRefusal.OtherKey → (F.held file.new ≡ F.held file.old) × (F.faults file.new ≡ F.faults file.old) }
    ensures read { IfSome (F.held file.old) (λ before. BeginsWith (known_by scenario.now held.entry) actor before.bytes (begun_list result)) }
    ensures held { IfOk result (λ station. HoldsAll (known_by scenario.now held.entry) (list_of station) (F.held file.old) (F.held file.new)) }
    // In the form that a life asks for.
    ensures whole { IfOk result (λ station. IsHeldWhole (contents_in station.so_far) (list_of station) (F.held file.new)) }
    ensures lines { IfErr result (λ _. HasItsLines (F.held file.old) (F.held file.new)) }
    ensures wants { IfErr result (λ refusal. TellsWant refusal) }
    ensures counted { OnOk result (F.faults file.new ≡ F.faults file.old) }
    ensures failed { IsErrOf result (BeginRefusal.NotLoaded LoadFailed) → HasRisen (F.faults file.old) (F.faults file.new) }
{
    let found = match before_first(alloc, scenario, held, actor) {
        Ok(found) => found,
        Err(Want) => return Err(BeginRefusal::Want),
    };
    let Some(begun) = found else {
        return Err(BeginRefusal::OtherKey);
    };
    let text = match file.recover(MOST_KEPT) {
        Ok(text) => text,
        Err(refusal) => return Err(not_loaded(refusal)),
    };
    let so_far = match reopen(alloc, begun, actor, text.as_slice()) {
        Ok(so_far) => so_far,
        Err(refusal) => return Err(not_read(refusal)),
    };
    match Station::of(so_far, actor, text.len() as u64) {
        Ok(station) => Ok(station),
        Err(Want) => Err(BeginRefusal::Want),
    }
}
