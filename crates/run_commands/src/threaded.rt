//! The text of a run in threads.
ghost use Rattle.std.specs.Prelude.{◌≡◌, ℕ, true, List, [], ◌∷◌, Ok};
ghost use Rattle.scenario_file.specs.Reading.{contents};
ghost use Rattle.scenario_file.specs.Valid.{IsScenario};
ghost use Rattle.script_grammar.specs.Names.{who_of};
ghost use Rattle.script_lines.specs.Scripts.{script_in};
ghost use Rattle.command_ends.specs.Calls.{TextCause, FaultsOfFiles};
ghost use Rattle.run_commands.specs.Readers.{IsScriptOf, are_in_range};
ghost use Rattle.command_files.specs.Scenarios.{scenario_at};
ghost use Rattle.run_commands.specs.Course.{RunCourse, RunStep};
ghost use Rattle.run_commands.specs.Told.{told_runs};

use crate::opening::{open_scenario, open_script, open_words};
use crate::runs::Runs;
use command_ends::Refusal;
use outside::Files;
use scenario_file::Scenario;
use script_lines::Script;
use std::alloc::Global;

/// A run in threads as words ask for it: the names of its files, how many hands each master has (1 to 4), and how many turns each
/// actor makes (1 to 4,000).
#[derive(Clone, Copy, Debug, PartialEq, Eq)]
pub struct RunWords<'a> {
    pub scenario: &'a str,
    pub script: &'a str,
    pub words: &'a str,
    pub hands: u32,
    pub turns: u32,
}

// Whether a run may have so many hands and turns.
fn are_in_range(hands: u32, turns: u32) -> bool
    ensures { result ≡ are_in_range hands turns }
{
    1 <= hands && hands <= 4 && 1 <= turns && turns <= 4000
}

/// The text of a run of three files.
pub(crate) fn run<R: Runs, F: Files>(
    alloc: Global,
    runs: &R,
    asked: RunWords<'_>,
    files: &mut F,
) -> Result<Vec<u8>, Refusal>
    requires { R.ready runs.now }
    ensures file_faults { FaultsOfFiles result (F.faults files.old) (F.faults files.new) }
    ensures cause { TextCause (RunStep (told_runs R.readers) (are_in_range asked.entry.hands asked.entry.turns) asked.entry.scenario.now asked.entry.script.now asked.entry.words.now asked.entry.turns) (F.held files.old) (F.faults files.old) (F.faults files.new) [] result }
{
    // The command line refuses other numbers too, but its contract doesn't say so.
    if are_in_range(asked.hands, asked.turns) {
        run_in_range(alloc, runs, asked, files)
    } else {
        Err(Refusal::Usage)
    }
}

// The same, of numbers that a run may have.
fn run_in_range<R: Runs, F: Files>(
    alloc: Global,
    runs: &R,
    asked: RunWords<'_>,
    files: &mut F,
) -> Result<Vec<u8>, Refusal>
    requires ready { R.ready runs.now }
    requires range { are_in_range asked.hands asked.turns ≡ true }
    ensures file_faults { FaultsOfFiles result (F.faults files.old) (F.faults files.new) }
    ensures cause { TextCause (RunCourse (told_runs R.readers) asked.entry.scenario.now asked.entry.script.now asked.entry.words.now asked.entry.turns) (F.held files.old) (F.faults files.old) (F.faults files.new) [] result }
{
    match open_scenario(alloc, asked.scenario, files) {
        Ok(scenario) => run_script(alloc, runs, &scenario, asked, files),
        Err(refusal) => Err(refusal),
    }
}

// The same, with the scenario read.
fn run_script<R: Runs, F: Files>(
    alloc: Global,
    runs: &R,
    scenario: &Scenario,
    asked: RunWords<'_>,
    files: &mut F,
) -> Result<Vec<u8>, Refusal>
    requires ready { R.ready runs.now }
    requires valid { IsScenario (contents scenario.now) }
    requires range { are_in_range asked.hands asked.turns ≡ true }
    ensures file_faults { FaultsOfFiles result (F.faults files.old) (F.faults files.new) }
    ensures cause { (first : List ℕ) → scenario_at first ≡ Ok (contents scenario.now)
        → TextCause (RunCourse (told_runs R.readers) asked.entry.scenario.now asked.entry.script.now asked.entry.words.now asked.entry.turns) (F.held files.old) (F.faults files.old) (F.faults files.new) (first ∷ []) result }
{
    match open_script(alloc, scenario, asked.script, files) {
        Ok(script) => run_words(alloc, runs, scenario, &script, asked, files),
        Err(refusal) => Err(refusal),
    }
}

// The same, with the scenario and the script read.
fn run_words<R: Runs, F: Files>(
    alloc: Global,
    runs: &R,
    scenario: &Scenario,
    script: &Script,
    asked: RunWords<'_>,
    files: &mut F,
) -> Result<Vec<u8>, Refusal>
    requires ready { R.ready runs.now }
    requires valid { IsScenario (contents scenario.now) }
    requires script { IsScriptOf (contents scenario.now) script.now }
    requires range { are_in_range asked.hands asked.turns ≡ true }
    ensures file_faults { FaultsOfFiles result (F.faults files.old) (F.faults files.new) }
    ensures cause { (first second : List ℕ) → scenario_at first ≡ Ok (contents scenario.now)
        → script_in (who_of (contents scenario.now)) second ≡ Ok script.now
        → TextCause (RunCourse (told_runs R.readers) asked.entry.scenario.now asked.entry.script.now asked.entry.words.now asked.entry.turns) (F.held files.old) (F.faults files.old) (F.faults files.new) (first ∷ second ∷ []) result }
{
    match open_words(alloc, scenario, asked.words, files) {
        Ok(words) => runs.run_text(alloc, scenario, script, &words, asked.hands, asked.turns),
        Err(refusal) => Err(refusal),
    }
}
