//! The scenario of a station's words, and its actor in it.
ghost use Rattle.std.specs.Prelude.{◌≡◌, ◌<◌, true, IfOk, ℕ, List, option_map};
ghost use Rattle.scenario_file.specs.Reading.{contents};
ghost use Rattle.scenario_file.specs.Valid.{IsScenario};
ghost use Rattle.script_grammar.specs.Names.{is_correct, who_of};
ghost use Rattle.world_rules.specs.Scenarios.{actors_in};
ghost use Rattle.command_ends.specs.Calls.{FaultsOfFiles};
ghost use Rattle.command_files.specs.Scenarios.{ReadCause};
ghost use Rattle.station_words.specs.Wanted.{key_files};
ghost use Rattle.station_commands.specs.Opening.{ActorCause, ScenarioCause, read_by};

use command_ends::{Refusal, load};
use command_files::{read_scenario, read_seedless};
use outside::Files;
use scenario_file::Scenario;
use script_grammar::LineRefusal;
use station_words::KeyFiles;
use stations::actor_of;
use std::alloc::Global;

/// The scenario of a file: with its seed, or without it where files of keys are named.
pub(crate) fn open_scenario<F: Files>(
    alloc: Global,
    name: &str,
    keys: Option<KeyFiles<'_>>,
    files: &mut F,
) -> Result<Scenario, Refusal>
    ensures kept { (other : List ℕ) → F.held files.new other ≡ F.held files.old other }
    ensures file_faults { FaultsOfFiles result (F.faults files.old) (F.faults files.new) }
    ensures cause { ScenarioCause (option_map key_files keys.entry) (F.held files.old name.now) (F.faults files.old name.now) (F.faults files.new name.now) name.now result }
    ensures valid { IfOk result (λ scenario. IsScenario (contents scenario)) }
{
    match load(alloc, name, files) {
        Ok(content) => read_by(alloc, keys, content.as_slice()),
        Err(refusal) => Err(refusal),
    }
}

fn read_by(alloc: Global, keys: Option<KeyFiles<'_>>, content: &[u8]) -> Result<Scenario, Refusal>
    ensures cause { ReadCause (read_by (option_map key_files keys.entry) content.now) result }
    ensures valid { IfOk result (λ scenario. IsScenario (contents scenario)) }
{
    match keys {
        None => read_scenario(alloc, content),
        Some(_) => read_seedless(alloc, content),
    }
}

/// The number of the correct actor of a name. A name that isn't one's is no word for a station.
pub(crate) fn find_actor(alloc: Global, scenario: &Scenario, name: &str) -> Result<u32, Refusal>
    requires { IsScenario (contents scenario.now) }
    ensures cause { ActorCause (contents scenario.now) name.now result }
    ensures there { IfOk result (λ actor. actor < actors_in (contents scenario.now)) }
    ensures correct { IfOk result (λ actor. is_correct (who_of (contents scenario.now)) actor ≡ true) }
{
    match actor_of(alloc, scenario, name) {
        Ok(actor) => Ok(actor),
        Err(LineRefusal::Want) => Err(Refusal::Memory),
        Err(LineRefusal::BadLine | LineRefusal::NoActor) => Err(Refusal::Usage),
    }
}
