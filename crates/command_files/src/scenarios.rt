//! A scenario, read with its seed or without it.
ghost use Rattle.std.specs.Prelude.{◌≡◌, ◌++◌, IfOk};
ghost use Rattle.scenario_file.specs.Answers.{Shows};
ghost use Rattle.scenario_file.specs.Reading.{contents};
ghost use Rattle.scenario_file.specs.Valid.{IsScenario};
ghost use Rattle.command_files.specs.Scenarios.{IsUnknownSeed, ReadCause, scenario_at, scenario_refusal, seedless_at, zeros_line};

use command_ends::{Refusal, ScenarioFault};
use plain_lists::{Text, Want};
use scenario_file::{Scenario, ScenarioRefusal};
use std::alloc::Global;

// What stands for the seed of a scenario that is read without one.
const ZEROS_LINE: &str =
    "seed = \"0000000000000000000000000000000000000000000000000000000000000000\"\n";

/// The scenario of a content.
pub fn read_scenario(alloc: Global, content: &[u8]) -> Result<Scenario, Refusal>
    ensures cause { ReadCause (scenario_at content.now) result }
    ensures valid { IfOk result (λ scenario. IsScenario (contents scenario)) }
{
    match scenario_of(alloc, content) {
        Ok(scenario) => Ok(scenario),
        Err(refusal) => Err(scenario_refusal(refusal)),
    }
}

/// The scenario of a content without a seed, as it is with a seed of zeros. A seed in it counts as an unknown key.
pub fn read_seedless(alloc: Global, content: &[u8]) -> Result<Scenario, Refusal>
    ensures cause { ReadCause (seedless_at content.now) result }
    ensures valid { IfOk result (λ scenario. IsScenario (contents scenario)) }
{
    match seedless_of(alloc, content) {
        Ok(scenario) => Ok(scenario),
        Err(refusal) => Err(scenario_refusal(refusal)),
    }
}

fn scenario_of(alloc: Global, content: &[u8]) -> Result<Scenario, ScenarioRefusal>
    ensures read { Shows contents result (scenario_at content.now) }
    ensures valid { IfOk result (λ scenario. IsScenario (contents scenario)) }
{
    Scenario::read(alloc, content)
}

#[tactic(auto, unfolding(crate::specs::Scenarios::seedless_at))]
fn seedless_of(alloc: Global, content: &[u8]) -> Result<Scenario, ScenarioRefusal>
    ensures read { Shows contents result (seedless_at content.now) }
    ensures valid { IfOk result (λ scenario. IsScenario (contents scenario)) }
{
    match scenario_of(alloc, content) {
        Ok(_) => Err(unknown_seed(alloc)),
        Err(ScenarioRefusal::MissingKey { name }) => {
            if name.as_str() == "seed" {
                with_zeros(alloc, content)
            } else {
                Err(ScenarioRefusal::MissingKey { name })
            }
        }
        Err(refusal) => Err(refusal),
    }
}

fn unknown_seed(alloc: Global) -> ScenarioRefusal
    ensures { IsUnknownSeed result }
{
    match Text::from_str(alloc, "seed") {
        Ok(name) => ScenarioRefusal::UnknownKey { name },
        Err(Want) => ScenarioRefusal::Want,
    }
}

fn with_zeros(alloc: Global, content: &[u8]) -> Result<Scenario, ScenarioRefusal>
    ensures read { Shows contents result (scenario_at (zeros_line ++ content.now)) }
    ensures valid { IfOk result (λ scenario. IsScenario (contents scenario)) }
{
    let whole = behind_zeros(alloc, content)?;
    scenario_of(alloc, whole.as_slice())
}

fn behind_zeros(alloc: Global, content: &[u8]) -> Result<Vec<u8>, Want>
    ensures { IfOk result (λ whole. whole.items ≡ zeros_line ++ content.now) }
{
    let mut whole = Vec::from_slice(alloc, ZEROS_LINE.as_bytes())?;
    whole.extend_from_slice(content)?;
    Ok(whole)
}

fn scenario_refusal(refusal: ScenarioRefusal) -> Refusal
    ensures { result ≡ scenario_refusal refusal }
{
    let fault = match refusal {
        ScenarioRefusal::BadToml => ScenarioFault::BadToml,
        ScenarioRefusal::MissingKey { name } => ScenarioFault::MissingKey { name },
        ScenarioRefusal::BadValue { name } => ScenarioFault::BadValue { name },
        ScenarioRefusal::TooMany { name } => ScenarioFault::TooMany { name },
        ScenarioRefusal::UnknownKey { name } => ScenarioFault::UnknownKey { name },
        ScenarioRefusal::Want => return Refusal::Memory,
    };
    Refusal::Scenario { fault }
}
