//! A run of what a script and words give.
ghost use Rattle.std.specs.Prelude.{◌≡◌, ◌≤◌, true, false, map, All, IfOk};
ghost use Rattle.scenario_file.specs.Reading.{contents};
ghost use Rattle.scenario_file.specs.Valid.{IsScenario};
ghost use Rattle.script_laws.specs.Accepted.{are_lines_of, are_sayings_of};
ghost use Rattle.replica_threads.specs.Ended.{IsRun};
ghost use Rattle.replica_threads.specs.Courses.{inputs_given};

use crate::Gate;
use crate::running::run;
use plain_lists::Want;
use scenario_file::Scenario;
use script_lines::{Script, Words, inputs};
use std::alloc::Global;
use std::sync::Wait;
use std::thread::Threads;
use world_history::Kept;

/// A run of threads in which each actor of a scenario is given what the script's lines and the words give it: the actors, in the
/// order of their numbers, once each has made so many turns, or was halted. A master has so many hands and each other actor one,
/// and the gate may hold them back. (No clause speaks of hands.) `Want` only where memory ran out.
pub fn run_script<R: Threads + Wait + Sync, G: Gate + Sync>(
    alloc: Global,
    rt: &R,
    scenario: &Scenario,
    script: &Script,
    words: &Words,
    hands: u32,
    turns: u64,
    gate: &G,
) -> Result<Vec<Kept>, Want>
    requires valid { IsScenario (contents scenario.now) }
    requires lines { are_lines_of (contents scenario.now) script.now ≡ true }
    requires words { are_sayings_of (contents scenario.now) words.now ≡ true }
    requires turns { turns ≤ 4000 }
    ensures run { IfOk result (λ kept. IsRun (contents scenario.now) (inputs_given (contents scenario.now) script.now words.now) turns (map (λ k. k.bench) kept.items)) }
    ensures works { IfOk result (λ kept. All (λ k. k.is_spent ≡ false) kept.items) }
{
    let inputs = inputs(alloc, scenario, script, words)?;
    run(alloc, rt, scenario, inputs, hands, turns, gate)
}
