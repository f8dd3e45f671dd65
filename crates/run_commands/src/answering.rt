//! Answers to questions over a history, and requests from their parts.
ghost use Rattle.std.specs.Prelude.{◌≡◌, ℕ, List, [], ◌∷◌};
ghost use Rattle.scenario_file.specs.Reading.{contents};
ghost use Rattle.scenario_file.specs.Valid.{IsScenario};
ghost use Rattle.command_ends.specs.Calls.{TextCause, FaultsOfFiles};
ghost use Rattle.run_commands.specs.Reading.{with_scenario};
ghost use Rattle.run_commands.specs.Course.{QuestionCourse, RebuildCourse};
ghost use Rattle.run_commands.specs.Opened.{LeadsTo};

use crate::opening::open_scenario;
use crate::questions::Question;
use crate::runs::Runs;
use command_ends::{Refusal, load};
use outside::Files;
use scenario_file::Scenario;
use std::alloc::Global;

/// The answer to a question over the history that a file spells.
pub fn answer<R: Runs, F: Files>(
    alloc: Global,
    runs: &R,
    scenario: &str,
    history: &str,
    question: Question,
    files: &mut F,
) -> Result<Vec<u8>, Refusal>
    ensures file_faults { FaultsOfFiles result (F.faults files.old) (F.faults files.new) }
    ensures cause { TextCause (QuestionCourse R.readers scenario.now history.now question) (F.held files.old) (F.faults files.old) (F.faults files.new) [] result }
{
    match open_scenario(alloc, scenario, files) {
        Ok(scenario) => answer_over(alloc, runs, &scenario, history, question, files),
        Err(refusal) => Err(refusal),
    }
}

// The same, with the scenario read.
fn answer_over<R: Runs, F: Files>(
    alloc: Global,
    runs: &R,
    scenario: &Scenario,
    history: &str,
    question: Question,
    files: &mut F,
) -> Result<Vec<u8>, Refusal>
    requires { IsScenario (contents scenario.now) }
    ensures file_faults { FaultsOfFiles result (F.faults files.old) (F.faults files.new) }
    ensures cause { (name first : List ℕ) → LeadsTo with_scenario first (contents scenario.now)
        → TextCause (QuestionCourse R.readers name history.now question) (F.held files.old) (F.faults files.old) (F.faults files.new) (first ∷ []) result }
{
    match load(alloc, history, files) {
        Ok(text) => runs.answer_text(alloc, scenario, text.as_slice(), question),
        Err(refusal) => Err(refusal),
    }
}

/// The request that a file of parts rebuilds, with the parts that are wrong.
pub fn rebuild<R: Runs, F: Files>(
    alloc: Global,
    runs: &R,
    scenario: &str,
    pieces: &str,
    files: &mut F,
) -> Result<Vec<u8>, Refusal>
    ensures file_faults { FaultsOfFiles result (F.faults files.old) (F.faults files.new) }
    ensures cause { TextCause (RebuildCourse R.readers scenario.now pieces.now) (F.held files.old) (F.faults files.old) (F.faults files.new) [] result }
{
    match open_scenario(alloc, scenario, files) {
        Ok(scenario) => rebuild_from(alloc, runs, &scenario, pieces, files),
        Err(refusal) => Err(refusal),
    }
}

// The same, with the scenario read.
fn rebuild_from<R: Runs, F: Files>(
    alloc: Global,
    runs: &R,
    scenario: &Scenario,
    pieces: &str,
    files: &mut F,
) -> Result<Vec<u8>, Refusal>
    requires { IsScenario (contents scenario.now) }
    ensures file_faults { FaultsOfFiles result (F.faults files.old) (F.faults files.new) }
    ensures cause { (name first : List ℕ) → LeadsTo with_scenario first (contents scenario.now)
        → TextCause (RebuildCourse R.readers name pieces.now) (F.held files.old) (F.faults files.old) (F.faults files.new) (first ∷ []) result }
{
    match load(alloc, pieces, files) {
        Ok(text) => runs.rebuilt_text(alloc, scenario, text.as_slice()),
        Err(refusal) => Err(refusal),
    }
}
