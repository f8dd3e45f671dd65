//! What the actors of a run came to.
ghost use Rattle.std.specs.Prelude.{◌≡◌, ◌++◌, ◌<◌, ◌≤◌, OnOk, string_bytes};
ghost use Rattle.std.specs.List.{All, flat_map};
ghost use Rattle.scenario_file.specs.Reading.{contents};
ghost use Rattle.scenario_file.specs.Valid.{IsScenario};
ghost use Rattle.world_rules.specs.Scenarios.{masters_in};
ghost use Rattle.printed_run.specs.Printed.{master_lines, client_lines, bench_lines, IsOf};

use plain_lists::Want;
use run_lines::{put_intruded, put_master, put_proxy, put_screen};
use scenario_file::Scenario;
use world_history::{Bench, is_halted};

/// Appends what each actor came to, in the order of their numbers.
pub(crate) fn put_states(
    text: &mut String,
    scenario: &Scenario,
    benches: &[Bench],
) -> Result<(), Want>
    requires scenario { IsScenario (contents scenario.now) }
    requires benches { All (IsOf (contents scenario.now)) benches.now }
    ensures { OnOk result (string_bytes text.new ≡ string_bytes text.old ++ flat_map (bench_lines (contents scenario.now)) benches.now) }
{
    for bench in benches {
        put_state(text, scenario, bench)?;
    }
    Ok(())
}

fn put_state(text: &mut String, scenario: &Scenario, bench: &Bench) -> Result<(), Want>
    requires scenario { IsScenario (contents scenario.now) }
    requires bench { IsOf (contents scenario.now) bench.now }
    ensures { OnOk result (string_bytes text.new ≡ string_bytes text.old ++ bench_lines (contents scenario.now) bench.now) }
{
    if bench.actor() < scenario.sizes.n {
        put_master_state(text, scenario, bench)
    } else {
        put_client_state(text, scenario, bench)
    }
}

#[tactic(auto, unfolding(crate::specs::Printed::master_lines))]
fn put_master_state(text: &mut String, scenario: &Scenario, bench: &Bench) -> Result<(), Want>
    requires scenario { IsScenario (contents scenario.now) }
    requires master { bench.now.actor < masters_in (contents scenario.now) }
    requires bench { IsOf (contents scenario.now) bench.now }
    ensures { OnOk result (string_bytes text.new ≡ string_bytes text.old ++ master_lines (contents scenario.now) bench.now.actor bench.now.list) }
{
    let master = bench.actor();
    let cast = scenario.cast();
    if scenario.intruded.has(master) {
        return put_intruded(text, cast, master);
    }
    let halted = is_halted(scenario, master, bench.list());
    put_master(text, cast, master, bench.view(), bench.executions(), halted)
}

#[tactic(auto, unfolding(crate::specs::Printed::client_lines))]
fn put_client_state(text: &mut String, scenario: &Scenario, bench: &Bench) -> Result<(), Want>
    requires scenario { IsScenario (contents scenario.now) }
    requires client { masters_in (contents scenario.now) ≤ bench.now.actor }
    requires bench { IsOf (contents scenario.now) bench.now }
    ensures { OnOk result (string_bytes text.new ≡ string_bytes text.old ++ client_lines (contents scenario.now) bench.now.actor bench.now.list) }
{
    let actor = bench.actor();
    let cast = scenario.cast();
    let halted = is_halted(scenario, actor, bench.list());
    if actor - cast.masters < cast.proxies {
        return put_proxy(text, cast, actor, bench.writes(), halted);
    }
    put_screen(text, cast, actor, bench.board(), halted)
}
