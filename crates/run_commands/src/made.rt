ghost use Rattle.std.specs.Prelude.{◌≡◌, ℕ, List, []};
ghost use Rattle.scenario_file.specs.Reading.{contents};
ghost use Rattle.scenario_file.specs.Valid.{IsScenario};
ghost use Rattle.run_commands.specs.Course.{made_run, make_step};
ghost use Rattle.run_commands.specs.Made.{Makes, MakesRun};

use crate::made_scenarios::made_scenario;
use crate::made_scripts::made_script;
use crate::opening::{read_scenario, read_script, read_words};
use crate::runs::Runs;
use crate::summary_lines::summary;
use command_ends::Refusal;
use scenario_file::Scenario;
use std::alloc::Global;

/// The summary of the run that a number makes. It loads no file.
#[tactic(auto, unfolding(crate::specs::Course::make_step))]
pub fn make<R: Runs>(alloc: Global, runs: &R, number: u32) -> Result<Vec<u8>, Refusal>
    ensures { Makes (make_step R.readers number) result }
{
    let Ok(text) = made_scenario(alloc, number) else {
        return Err(Refusal::Memory);
    };
    match read_scenario(alloc, text.as_bytes()) {
        Ok(scenario) => make_of(alloc, runs, &scenario, number),
        Err(refusal) => Err(refusal),
    }
}

// The same, with the scenario read.
fn make_of<R: Runs>(
    alloc: Global,
    runs: &R,
    scenario: &Scenario,
    number: u32,
) -> Result<Vec<u8>, Refusal>
    requires { IsScenario (contents scenario.now) }
    ensures { Makes (made_run R.readers (contents scenario.now) number) result }
{
    match made_text(alloc, runs, scenario, number) {
        Ok(text) => match summary(alloc, text.as_slice()) {
            Ok(lines) => Ok(lines),
            Err(_) => Err(Refusal::Memory),
        },
        Err(refusal) => Err(refusal),
    }
}

// The whole text of the run.
fn made_text<R: Runs>(
    alloc: Global,
    runs: &R,
    scenario: &Scenario,
    number: u32,
) -> Result<Vec<u8>, Refusal>
    requires { IsScenario (contents scenario.now) }
    ensures { MakesRun R.readers (contents scenario.now) number result }
{
    let Ok(text) = made_script(alloc, number) else {
        return Err(Refusal::Memory);
    };
    match read_script(alloc, scenario, text.as_bytes()) {
        Ok(script) => match read_words(alloc, scenario, &[]) {
            Ok(words) => runs.play_text(alloc, scenario, &script, &words),
            Err(refusal) => Err(refusal),
        },
        Err(refusal) => Err(refusal),
    }
}
