//! A station that begins: its file is opened, recovered and read.
ghost use Rattle.std.specs.Prelude.{◌≡◌, ◌<◌, true, IfOk, IfSome, OnOk, length, option_copied};
ghost use Rattle.scenario_file.specs.Reading.{contents};
ghost use Rattle.scenario_file.specs.Valid.{IsScenario};
ghost use Rattle.script_grammar.specs.Names.{is_correct, who_of};
ghost use Rattle.world_rules.specs.Scenarios.{actors_in};
ghost use Rattle.printed_history.specs.Reading.{contents_in, known_by};
ghost use Rattle.stations.specs.Beginning.{IsHeldWhole};
ghost use Rattle.stations.specs.Station.{IsReady, list_of};
ghost use Rattle.station_commands.specs.Lives.{BeginCause, OpenCause, AreEntriesOf, begin_refusal};

use crate::keep::Keep;
use crate::refusal::{StationFault, StationRefusal};
use command_ends::{KeepFault, Refusal};
use kept_lines::KeptRefusal;
use outside::LoadAnswer;
use plain_lists::{Text, Want};
use scenario_file::{HeldKeys, Scenario};
use station_files::{KeptFile, OpenAnswer};
use stations::{BeginRefusal, Station, begin};
use std::alloc::Global;

/// Opens the file of this name, and gives a copy of the name, with which a fault of the file is told.
pub(crate) fn open_named<K: Keep>(
    alloc: Global,
    name: &str,
    keep: &mut K,
) -> Result<Text, StationRefusal>
    ensures cause { OpenCause (K.faults keep.old) (K.faults keep.new) name.now result }
    ensures opened { OnOk result (K.held keep.new ≡ K.lies keep.old name.now) }
{
    // The name is copied first, so that no fault is told as want of memory.
    let named = match Text::from_str(alloc, name) {
        Ok(named) => named,
        Err(Want) => return Err(StationRefusal::Known(Refusal::Memory)),
    };
    match keep.open(name) {
        Ok(()) => Ok(named),
        Err(OpenAnswer::Failed) => Err(StationRefusal::Known(Refusal::Fault { name: named })),
        Err(OpenAnswer::InUse) => Err(StationRefusal::Own(StationFault::InUse)),
    }
}

/// The station that the file of this name tells, of one who holds these keys, or all.
pub(crate) fn begin_kept<'a, K: KeptFile>(
    alloc: Global,
    scenario: &'a Scenario,
    held: Option<&'a HeldKeys>,
    actor: u32,
    name: Text,
    keep: &mut K,
) -> Result<Station<'a>, StationRefusal>
    requires scenario { IsScenario (contents scenario.now) }
    requires there { actor < actors_in (contents scenario.now) }
    requires correct { is_correct (who_of (contents scenario.now)) actor ≡ true }
    requires ring { IfSome (option_copied held) (λ keys. length keys.ring ≡ actors_in (contents scenario.now)) }
    ensures ready { IfOk result (λ station. IsReady station) }
    ensures same { IfOk result (λ station. (contents_in station.so_far ≡ known_by scenario.now held.entry) × (station.actor ≡ actor)) }
    ensures read { IfOk result (λ station. AreEntriesOf (known_by scenario.now held.entry) actor (K.held keep.old) (list_of station)) }
    ensures whole { IfOk result (λ station. IsHeldWhole (contents_in station.so_far) (list_of station) (K.held keep.new)) }
    ensures cause { BeginCause (known_by scenario.now held.entry) actor (K.held keep.old) (K.faults keep.old) (K.faults keep.new) name result }
{
    match begin(alloc, scenario, held, actor, keep) {
        Ok(station) => Ok(station),
        Err(refusal) => Err(begin_refusal(refusal, name)),
    }
}

fn begin_refusal(refusal: BeginRefusal, name: Text) -> StationRefusal
    ensures { result ≡ begin_refusal refusal name }
{
    let fault = match refusal {
        BeginRefusal::OtherKey => return StationRefusal::Own(StationFault::OtherKey),
        BeginRefusal::NotLoaded(LoadAnswer::Failed) => {
            return StationRefusal::Known(Refusal::Fault { name });
        }
        BeginRefusal::NotLoaded(LoadAnswer::TooLong) => {
            return StationRefusal::Known(Refusal::TooLong { name });
        }
        BeginRefusal::NotRead(KeptRefusal::BadLine { line }) => KeepFault::BadLine { line },
        BeginRefusal::NotRead(KeptRefusal::NotLegal { stamp }) => KeepFault::NotLegal { stamp },
        BeginRefusal::NotRead(KeptRefusal::OtherWords { stamp }) => KeepFault::OtherWords { stamp },
        BeginRefusal::Want
        | BeginRefusal::NotLoaded(LoadAnswer::Want)
        | BeginRefusal::NotRead(KeptRefusal::Want) => {
            return StationRefusal::Known(Refusal::Memory);
        }
    };
    StationRefusal::Own(StationFault::NotKept { fault })
}
