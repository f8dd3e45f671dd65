ghost use Rattle.std.specs.Prelude.{◌≡◌, ◌++◌, IfOk, OnOk, codes, string_bytes};
ghost use Rattle.run_commands.specs.MadeScenario.{made_scenario, made_seed, proxies, points, rules};

use plain_lists::Want;
use std::alloc::Global;

// Two devices: one with a breaker's coil and a feeder's current, one with two coils.
const PROXIES: &str =
    "[[proxy]]\ncoils = 2\ndiscrete = 0\nholding = 1\ninput = 1\n[[proxy]]\ncoils = 2\ndiscrete = 0\nholding = 0\ninput = 0\n";

// The current, the breaker, and a pump whose place its device doesn't have.
const POINTS: &str =
    "[[point]]\nname = \"feeder_amps\"\nproxy = 0\narea = \"input\"\nplace = 0\nscale = 10\nlow = 0\nhigh = 20000\n[[point]]\nname = \"breaker\"\nproxy = 0\narea = \"coil\"\nplace = 0\nlow = 0\nhigh = 1\n[[point]]\nname = \"pump\"\nproxy = 1\narea = \"coil\"\nplace = 9\nlow = 0\nhigh = 1\n";

// An alarm while the current is high, and that the breaker isn't closed meanwhile.
const RULES: &str =
    "[[alarm]]\nname = \"overload\"\npoint = \"feeder_amps\"\nkind = \"high\"\nlimit = 9000\nband = 500\n[[interlock]]\nname = \"no_close\"\npoint = \"breaker\"\nvalue = 1\ndeny = \"alarm overload\"\n";

/// The scenario of the run that a number makes, as the text of a file.
#[tactic(auto, unfolding(crate::specs::MadeScenario::made_scenario))]
pub fn made_scenario(alloc: Global, number: u32) -> Result<String, Want>
    ensures { IfOk result (λ text. string_bytes text ≡ made_scenario number) }
{
    let seed = hex::encode(alloc, made_seed(number))?;
    let seed = seed.as_str();
    let mut text = format!(in alloc; "f = 1\nseed = \"{seed}\"\nscreens = 1\n")?;
    text.push_str(PROXIES)?;
    text.push_str(POINTS)?;
    text.push_str(RULES)?;
    Ok(text)
}

#[tactic(auto, unfolding(crate::specs::MadeScenario::made_seed, wire_parts::specs::Fields::u32_bytes))]
fn made_seed(number: u32) -> [u8; 32]
    ensures { result ≡ made_seed number }
{
    let mut seed = [0; 32];
    seed[28..].copy_from_slice(&number.to_be_bytes());
    seed
}
