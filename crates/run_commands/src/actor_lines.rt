ghost use Rattle.std.specs.Prelude.{◌≡◌, ◌++◌, ◌≤◌, IfOk, OnOk, option_map, string_bytes};
ghost use Rattle.scenario_file.specs.Actors.{actors_of};
ghost use Rattle.scenario_file.specs.Reading.{contents, cast_of};
ghost use Rattle.scenario_file.specs.Valid.{IsScenario};
ghost use Rattle.run_commands.specs.Keys.{key_line, keys_text, own_key_in, own_key_text};

use actor_keys::{actor_identifier, actor_key, actor_seed};
use command_files::{put_own_line, put_ring_line};
use plain_lists::Want;
use scenario_file::{Cast, Scenario};
use std::alloc::Global;

/// One line for each actor of a scenario, the masters first: its name, and its public key as 120 lower-case hex digits.
#[tactic(auto, unfolding(crate::specs::Keys::keys_text))]
pub fn keys_text(alloc: Global, scenario: &Scenario) -> Result<String, Want>
    requires { IsScenario (contents scenario.now) }
    ensures { IfOk result (λ text. string_bytes text ≡ keys_text (contents scenario.now)) }
{
    let cast = cast_of(scenario);
    let mut text = String::new(alloc);
    for actor in 0..cast.actors() {
        put_key(alloc, &mut text, scenario, cast, actor)?;
    }
    Ok(text)
}

fn cast_of(scenario: &Scenario) -> Cast
    requires { IsScenario (contents scenario.now) }
    ensures value { result ≡ cast_of (contents scenario.now).settings (contents scenario.now).plant }
    ensures few { actors_of result ≤ 26 }
{
    scenario.cast()
}

#[tactic(auto, unfolding(crate::specs::Keys::key_line))]
fn put_key(
    alloc: Global,
    text: &mut String,
    scenario: &Scenario,
    cast: Cast,
    actor: u32,
) -> Result<(), Want>
    requires scenario { IsScenario (contents scenario.now) }
    requires cast { cast ≡ cast_of (contents scenario.now).settings (contents scenario.now).plant }
    requires few { actors_of cast ≤ 26 }
    ensures { OnOk result (string_bytes text.new ≡ string_bytes text.old ++ key_line (contents scenario.now) actor) }
{
    let name = cast.name(alloc, actor)?;
    let key = actor_key(alloc, &scenario.seed, scenario.heights.as_slice(), actor)?;
    let public = key.public();
    put_ring_line(alloc, text, name.as_str(), &public)
}

/// The line of the own key of the actor of a name: the name, the key's seed as 64 lower-case hex digits, and its identifier as 32.
/// None exactly where there is no such actor.
pub fn own_key_text(alloc: Global, scenario: &Scenario, name: &str) -> Result<Option<String>, Want>
    requires { IsScenario (contents scenario.now) }
    ensures { IfOk result (λ found. option_map string_bytes found ≡ own_key_in (contents scenario.now) name.now) }
{
    let cast = cast_of(scenario);
    match cast.named(alloc, name)? {
        Some(actor) => Ok(Some(own_key(alloc, scenario, cast, actor)?)),
        None => Ok(None),
    }
}

#[tactic(auto, unfolding(crate::specs::Keys::own_key_text))]
fn own_key(alloc: Global, scenario: &Scenario, cast: Cast, actor: u32) -> Result<String, Want>
    requires cast { cast ≡ cast_of (contents scenario.now).settings (contents scenario.now).plant }
    requires few { actors_of cast ≤ 26 }
    ensures { IfOk result (λ text. string_bytes text ≡ own_key_text (contents scenario.now) actor) }
{
    let name = cast.name(alloc, actor)?;
    let seed = actor_seed(&scenario.seed, actor);
    let identifier = actor_identifier(&scenario.seed, actor);
    let mut text = String::new(alloc);
    put_own_line(alloc, &mut text, name.as_str(), &seed, &identifier)?;
    Ok(text)
}
