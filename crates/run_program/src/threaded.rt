//! The text of a run in threads.
ghost use Rattle.std.specs.Prelude.{◌≡◌, ◌≤◌, List, true, IfOk};
ghost use Rattle.scenario_file.specs.Reading.{contents};
ghost use Rattle.scenario_file.specs.Valid.{IsScenario};
ghost use Rattle.script_laws.specs.Accepted.{are_lines_of, are_sayings_of};
ghost use Rattle.history_rules.specs.Events.{Entry};
ghost use Rattle.replica_threads.specs.Ended.{IsHistoryOf};
ghost use Rattle.replica_threads.specs.Courses.{inputs_given};
ghost use Rattle.run_program.specs.Whole.{IsTextOf};

use crate::played::text_of_benches;
use plain_lists::Want;
use replica_threads::laws::runs_are_legal;
use replica_threads::{PaceGate, run_script};
use scenario_file::Scenario;
use script_lines::{Script, Words};
use std::alloc::Global;
use std::sync::Wait;
use std::thread::Threads;
use world_history::benches_of;

/// The text of a run of threads: each actor of a scenario makes so many turns, and is given what the script's lines and the
/// words give it. A master has so many hands and each other actor one, each in a thread of its own where one can be made.
/// `Want` only where memory ran out.
pub(crate) fn run_text<R: Threads + Wait + Sync>(
    alloc: Global,
    rt: &R,
    scenario: &Scenario,
    script: &Script,
    words: &Words,
    hands: u32,
    turns: u64,
) -> Result<Vec<u8>, Want>
    requires valid { IsScenario (contents scenario.now) }
    requires lines { are_lines_of (contents scenario.now) script.now ≡ true }
    requires words { are_sayings_of (contents scenario.now) words.now ≡ true }
    requires turns { turns ≤ 4000 }
    ensures { IfOk result (λ text. (history : List Entry) × IsHistoryOf (contents scenario.now) (inputs_given (contents scenario.now) script.now words.now) turns history × IsTextOf (contents scenario.now) history text.items) }
{
    runs_are_legal();
    let gate = PaceGate::make(alloc, scenario.cast().actors())?;
    let kept = run_script(alloc, rt, scenario, script, words, hands, turns, &gate)?;
    let benches = benches_of(alloc, kept)?;
    text_of_benches(alloc, scenario, benches.as_slice())
}
