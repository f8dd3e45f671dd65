//! The public keys of all actors of a scenario.
ghost use Rattle.std.specs.Prelude.{◌≡◌, length, Some, IfOk};
ghost use Rattle.scenario_file.specs.Reading.{contents, with_held};
ghost use Rattle.scenario_file.specs.Valid.{IsScenario};
ghost use Rattle.world_rules.specs.Scenarios.{actors_in};
ghost use Rattle.world_history.specs.Signed.{ring_in};

use checked_frames::KeyRing;
use plain_lists::Want;
use scenario_file::{HeldKeys, Scenario};
use std::alloc::Global;

/// The ring of a scenario's actors, by which frames are checked: each one's public key, in the order of their numbers.
pub fn ring_of(alloc: Global, scenario: &Scenario) -> Result<KeyRing, Want>
    requires { IsScenario (contents scenario.now) }
    ensures { IfOk result (λ ring. ring ≡ ring_in (contents scenario.now)) }
{
    let cast = scenario.cast();
    let clients = cast.proxies + cast.screens;
    let heights = scenario.heights.as_slice();
    actor_keys::ring_of(alloc, scenario.sizes, clients, &scenario.seed, heights)
}

/// The same ring out of keys that are held, of which the scenario's seed makes none.
pub fn held_ring(alloc: Global, scenario: &Scenario, held: &HeldKeys) -> Result<KeyRing, Want>
    requires valid { IsScenario (contents scenario.now) }
    requires ring { length held.now.ring ≡ actors_in (contents scenario.now) }
    ensures { IfOk result (λ ring. ring ≡ ring_in (with_held (contents scenario.now) (Some held.now))) }
{
    let cast = scenario.cast();
    let clients = cast.proxies + cast.screens;
    let publics = held.ring.as_slice();
    KeyRing::make(alloc, scenario.sizes, clients, publics)
}
