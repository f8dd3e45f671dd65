ghost use Rattle.std.specs.Prelude.{◌≡◌, ℕ, List, [], ◌∷◌, Ok};
ghost use Rattle.scenario_file.specs.Reading.{contents};
ghost use Rattle.scenario_file.specs.Valid.{IsScenario};
ghost use Rattle.command_ends.specs.Steps.Step.{Gives};
ghost use Rattle.command_ends.specs.Calls.{TextCause, FaultsOfFiles};
ghost use Rattle.script_grammar.specs.Names.{who_of};
ghost use Rattle.script_lines.specs.Scripts.{script_in};
ghost use Rattle.run_commands.specs.Keys.{keys_text, own_key_in};
ghost use Rattle.run_commands.specs.Readers.{IsScriptOf};
ghost use Rattle.command_files.specs.Scenarios.{scenario_at};
ghost use Rattle.run_commands.specs.Course.{KeyCourse, KeysCourse, ScriptedCourse, or_usage};
ghost use Rattle.run_commands.specs.Told.{PlayEnds, ReplayCourse};
ghost use Rattle.run_commands.specs.Made.{Makes};

use crate::actor_lines::{keys_text, own_key_text};
use crate::opening::{open_scenario, open_script, open_words};
use crate::runs::Runs;
use command_ends::{Refusal, load};
use outside::Files;
use scenario_file::Scenario;
use script_lines::Script;
use std::alloc::Global;

/// The text of a play of three files.
pub fn play<R: Runs, F: Files>(
    alloc: Global,
    runs: &R,
    scenario: &str,
    script: &str,
    words: &str,
    files: &mut F,
) -> Result<Vec<u8>, Refusal>
    ensures file_faults { FaultsOfFiles result (F.faults files.old) (F.faults files.new) }
    ensures cause { TextCause (ScriptedCourse R.readers (PlayEnds R.readers) scenario.now script.now words.now) (F.held files.old) (F.faults files.old) (F.faults files.new) [] result }
{
    match open_scenario(alloc, scenario, files) {
        Ok(scenario) => play_script(alloc, runs, &scenario, script, words, files),
        Err(refusal) => Err(refusal),
    }
}

// The same, with the scenario read.
fn play_script<R: Runs, F: Files>(
    alloc: Global,
    runs: &R,
    scenario: &Scenario,
    script: &str,
    words: &str,
    files: &mut F,
) -> Result<Vec<u8>, Refusal>
    requires { IsScenario (contents scenario.now) }
    ensures file_faults { FaultsOfFiles result (F.faults files.old) (F.faults files.new) }
    ensures cause { (name first : List ℕ) → scenario_at first ≡ Ok (contents scenario.now)
        → TextCause (ScriptedCourse R.readers (PlayEnds R.readers) name script.now words.now) (F.held files.old) (F.faults files.old) (F.faults files.new) (first ∷ []) result }
{
    match open_script(alloc, scenario, script, files) {
        Ok(script) => play_words(alloc, runs, scenario, &script, words, files),
        Err(refusal) => Err(refusal),
    }
}

// The same, with the scenario and the script read.
fn play_words<R: Runs, F: Files>(
    alloc: Global,
    runs: &R,
    scenario: &Scenario,
    script: &Script,
    words: &str,
    files: &mut F,
) -> Result<Vec<u8>, Refusal>
    requires valid { IsScenario (contents scenario.now) }
    requires script { IsScriptOf (contents scenario.now) script.now }
    ensures file_faults { FaultsOfFiles result (F.faults files.old) (F.faults files.new) }
    ensures cause { (name named first second : List ℕ) → scenario_at first ≡ Ok (contents scenario.now)
        → script_in (who_of (contents scenario.now)) second ≡ Ok script.now
        → TextCause (ScriptedCourse R.readers (PlayEnds R.readers) name named words.now) (F.held files.old) (F.faults files.old) (F.faults files.new) (first ∷ second ∷ []) result }
{
    match open_words(alloc, scenario, words, files) {
        Ok(words) => runs.play_text(alloc, scenario, script, &words),
        Err(refusal) => Err(refusal),
    }
}

/// The text of a history that a file spells.
pub fn replay<R: Runs, F: Files>(
    alloc: Global,
    runs: &R,
    scenario: &str,
    history: &str,
    files: &mut F,
) -> Result<Vec<u8>, Refusal>
    ensures file_faults { FaultsOfFiles result (F.faults files.old) (F.faults files.new) }
    ensures cause { TextCause (ReplayCourse R.readers scenario.now history.now) (F.held files.old) (F.faults files.old) (F.faults files.new) [] result }
{
    match open_scenario(alloc, scenario, files) {
        Ok(scenario) => replay_history(alloc, runs, &scenario, history, files),
        Err(refusal) => Err(refusal),
    }
}

// The same, with the scenario read.
fn replay_history<R: Runs, F: Files>(
    alloc: Global,
    runs: &R,
    scenario: &Scenario,
    history: &str,
    files: &mut F,
) -> Result<Vec<u8>, Refusal>
    requires { IsScenario (contents scenario.now) }
    ensures file_faults { FaultsOfFiles result (F.faults files.old) (F.faults files.new) }
    ensures cause { (name first : List ℕ) → scenario_at first ≡ Ok (contents scenario.now)
        → TextCause (ReplayCourse R.readers name history.now) (F.held files.old) (F.faults files.old) (F.faults files.new) (first ∷ []) result }
{
    match load(alloc, history, files) {
        Ok(text) => runs.replay_text(alloc, scenario, text.as_slice()),
        Err(refusal) => Err(refusal),
    }
}

/// The public keys of a scenario's actors.
pub fn keys<F: Files>(alloc: Global, scenario: &str, files: &mut F) -> Result<Vec<u8>, Refusal>
    ensures file_faults { FaultsOfFiles result (F.faults files.old) (F.faults files.new) }
    ensures cause { TextCause (KeysCourse scenario.now) (F.held files.old) (F.faults files.old) (F.faults files.new) [] result }
{
    match open_scenario(alloc, scenario, files) {
        Ok(scenario) => keys_of(alloc, &scenario),
        Err(refusal) => Err(refusal),
    }
}

fn keys_of(alloc: Global, scenario: &Scenario) -> Result<Vec<u8>, Refusal>
    requires { IsScenario (contents scenario.now) }
    ensures { Makes (Gives (keys_text (contents scenario.now))) result }
{
    match keys_text(alloc, scenario) {
        Ok(text) => Ok(text.into_bytes()),
        Err(_) => Err(Refusal::Memory),
    }
}

/// What the own key of a scenario's actor is made of.
pub fn key<F: Files>(
    alloc: Global,
    scenario: &str,
    actor: &str,
    files: &mut F,
) -> Result<Vec<u8>, Refusal>
    ensures file_faults { FaultsOfFiles result (F.faults files.old) (F.faults files.new) }
    ensures cause { TextCause (KeyCourse scenario.now actor.now) (F.held files.old) (F.faults files.old) (F.faults files.new) [] result }
{
    match open_scenario(alloc, scenario, files) {
        Ok(scenario) => key_of(alloc, &scenario, actor),
        Err(refusal) => Err(refusal),
    }
}

fn key_of(alloc: Global, scenario: &Scenario, actor: &str) -> Result<Vec<u8>, Refusal>
    requires { IsScenario (contents scenario.now) }
    ensures { Makes (or_usage (own_key_in (contents scenario.now) actor.now)) result }
{
    match own_key_text(alloc, scenario, actor) {
        Ok(Some(text)) => Ok(text.into_bytes()),
        Ok(None) => Err(Refusal::Usage),
        Err(_) => Err(Refusal::Memory),
    }
}
