//! An actor's role before its first event.
ghost use Rattle.std.specs.Prelude.{◌≡◌, ◌+◌, ◌<◌, [], IfOk};
ghost use Rattle.scenario_file.specs.Reading.{contents};
ghost use Rattle.scenario_file.specs.Valid.{IsScenario};
ghost use Rattle.hash_signatures.specs.Signatures.{all_leaves};
ghost use Rattle.world_rules.specs.Scenarios.{key_in};
ghost use Rattle.world_history.specs.Roles.{IsRole};

use crate::role::Role;
use field_proxy::Proxy;
use intruder_words::Overheard;
use master_node::Node;
use operator_screen::Screen;
use plain_lists::Want;
use scenario_file::Scenario;
use std::alloc::Global;

/// What an actor is, before its first event: a master, intruded or not, the proxy of a device, or a screen.
pub(crate) fn begin(
    alloc: Global,
    scenario: &Scenario,
    actor: u32,
    leaves: u64,
) -> Result<Role, Want>
    requires valid { IsScenario (contents scenario.now) }
    requires leaves { leaves ≡ all_leaves (key_in (contents scenario.now) 0) }
    ensures { IfOk result (λ role. IsRole (contents scenario.now) actor [] role) }
{
    if actor < scenario.sizes.n {
        return begin_master(alloc, scenario, actor, leaves);
    }
    begin_client(alloc, scenario, actor - scenario.sizes.n)
}

fn begin_master(alloc: Global, scenario: &Scenario, master: u32, leaves: u64) -> Result<Role, Want>
    requires valid { IsScenario (contents scenario.now) }
    requires master { master < scenario.now.sizes.n }
    requires leaves { leaves ≡ all_leaves (key_in (contents scenario.now) 0) }
    ensures { IfOk result (λ role. IsRole (contents scenario.now) master [] role) }
{
    if scenario.intruded.has(master) {
        return Ok(Role::Intruded(Overheard::new(alloc)));
    }
    Ok(Role::Master(Node::make(alloc, scenario, master, leaves)?))
}

fn begin_client(alloc: Global, scenario: &Scenario, client: u32) -> Result<Role, Want>
    requires valid { IsScenario (contents scenario.now) }
    ensures { IfOk result (λ role. IsRole (contents scenario.now) (scenario.now.sizes.n + client) [] role) }
{
    if (client as usize) < scenario.plant.devices.len() {
        return Ok(Role::Proxy(Proxy::make(alloc, client, scenario.sizes, &scenario.plant)?));
    }
    Ok(Role::Screen(Screen::make(alloc, client, scenario.sizes)))
}
