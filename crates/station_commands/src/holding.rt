//! The keys of a station whose scenario has no seed: the ring of all public keys, and its own key.
ghost use Rattle.std.specs.Prelude.{◌≡◌, ◌≤◌, ℕ, List, OnOk, Some, option_map};
ghost use Rattle.scenario_file.specs.Actors.{actors_of};
ghost use Rattle.scenario_file.specs.Reading.{cast_of, contents};
ghost use Rattle.scenario_file.specs.Valid.{IsScenario};
ghost use Rattle.command_ends.specs.Calls.{CountsStay};
ghost use Rattle.station_words.specs.Wanted.{key_files};
ghost use Rattle.station_commands.specs.Holding.{HoldingCause, OwnKeyCause, RingCause, both_held};

use crate::refusal::{StationFault, StationRefusal};
use command_ends::{Refusal, load};
use command_files::{KeyFault, OwnKey, read_own_key, read_ring};
use outside::Files;
use plain_lists::Items;
use scenario_file::{Cast, HeldKeys, Scenario};
use station_words::KeyFiles;
use std::alloc::Global;

/// What the actor of a name holds: the keys of the files that are named, if any are.
pub(crate) fn open_keys<F: Files>(
    alloc: Global,
    scenario: &Scenario,
    actor: &str,
    named: Option<KeyFiles<'_>>,
    files: &mut F,
) -> Result<Option<HeldKeys>, StationRefusal>
    requires { IsScenario (contents scenario.now) }
    ensures { HoldingCause (contents scenario.now) actor.now (F.held files.old) (F.faults files.old) (F.faults files.new) (option_map key_files named.entry) result }
{
    match named {
        None => Ok(None),
        Some(named) => match open_both(alloc, scenario, actor, named, files) {
            Ok(keys) => Ok(Some(keys)),
            Err(refusal) => Err(refusal),
        },
    }
}

fn open_both<F: Files>(
    alloc: Global,
    scenario: &Scenario,
    actor: &str,
    named: KeyFiles<'_>,
    files: &mut F,
) -> Result<HeldKeys, StationRefusal>
    requires { IsScenario (contents scenario.now) }
    ensures { HoldingCause (contents scenario.now) actor.now (F.held files.old) (F.faults files.old) (F.faults files.new) (Some (key_files named.entry)) (both_held result) }
{
    let ring = match open_ring(alloc, scenario, named.ring, files) {
        Ok(ring) => ring,
        Err(refusal) => return Err(refusal),
    };
    match open_own_key(alloc, actor, named.key, files) {
        Ok(own) => {
            let seed = own.seed;
            let identifier = own.identifier;
            Ok(HeldKeys {
                ring,
                seed,
                identifier,
            })
        }
        Err(refusal) => Err(refusal),
    }
}

// The ring of a file.
fn open_ring<F: Files>(
    alloc: Global,
    scenario: &Scenario,
    name: &str,
    files: &mut F,
) -> Result<Items<[u8; 60]>, StationRefusal>
    requires { IsScenario (contents scenario.now) }
    ensures kept { (other : List ℕ) → F.held files.new other ≡ F.held files.old other }
    ensures counted { OnOk result (CountsStay (F.faults files.old) (F.faults files.new)) }
    ensures cause { RingCause (contents scenario.now) (F.held files.old name.now) (F.faults files.old name.now) (F.faults files.new name.now) name.now result }
{
    let content = match load(alloc, name, files) {
        Ok(content) => content,
        Err(refusal) => return Err(StationRefusal::Known(refusal)),
    };
    match read_ring(alloc, cast_of(scenario), content.as_slice()) {
        Ok(ring) => Ok(ring),
        Err(KeyFault::BadLine { line }) => Err(StationRefusal::Own(StationFault::BadRing { line })),
        Err(KeyFault::Want) => Err(StationRefusal::Known(Refusal::Memory)),
    }
}

fn cast_of(scenario: &Scenario) -> Cast
    requires { IsScenario (contents scenario.now) }
    ensures value { result ≡ cast_of (contents scenario.now).settings (contents scenario.now).plant }
    ensures few { actors_of result ≤ 26 }
{
    scenario.cast()
}

// The own key of a file.
fn open_own_key<F: Files>(
    alloc: Global,
    actor: &str,
    name: &str,
    files: &mut F,
) -> Result<OwnKey, StationRefusal>
    ensures { OwnKeyCause actor.now (F.held files.old name.now) (F.faults files.old name.now) (F.faults files.new name.now) name.now result }
{
    let content = match load(alloc, name, files) {
        Ok(content) => content,
        Err(refusal) => return Err(StationRefusal::Known(refusal)),
    };
    match read_own_key(alloc, actor, content.as_slice()) {
        Ok(key) => Ok(key),
        Err(KeyFault::BadLine { line }) => Err(StationRefusal::Own(StationFault::BadKey { line })),
        Err(KeyFault::Want) => Err(StationRefusal::Known(Refusal::Memory)),
    }
}
