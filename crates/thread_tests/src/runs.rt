//! Runs of a small scenario.
ghost use Rattle.std.specs.Prelude.{◌≤◌};

use replica_threads::{Gate, run_script};
use scenario_file::Scenario;
use script_laws::laws::{read_lines_are_of_scenario, read_words_are_of_scenario};
use script_lines::{Script, Words};
use std::alloc::Global;
use std::sync::Wait;
use std::test::Fail;
use std::thread::Threads;
use world_history::{Event, Kept};

/// Masters 0 to 3 and a screen as actor 4. Few hashes make the keys.
const SMALL: &str =
    "f = 1\nseed = \"0000000000000000000000000000000000000000000000000000000000000000\"\nlevels = [5]\nscreens = 1\n";

/// The actors after a run of the small scenario.
pub(crate) fn run_small<R: Threads + Wait + Sync, G: Gate + Sync>(
    alloc: Global,
    rt: &R,
    script: &str,
    hands: u32,
    turns: u64,
    gate: &G,
) -> Result<Vec<Kept>, Fail>
    requires { turns ≤ 4000 }
{
    let scenario = Scenario::read(alloc, SMALL.as_bytes())?;
    let script = Script::read(alloc, script.as_bytes(), &scenario)?;
    let words = Words::read(alloc, b"", &scenario)?;
    read_lines_are_of_scenario();
    read_words_are_of_scenario();
    Ok(run_script(alloc, rt, &scenario, &script, &words, hands, turns, gate)?)
}

/// How many entries besides skips the actors have.
pub(crate) fn turns_made(actors: &[Kept]) -> usize {
    let mut count = 0usize;
    for actor in actors {
        for entry in actor.bench().list() {
            if !matches!(entry.event, Event::Skip) {
                count = count.saturating_add(1);
            }
        }
    }
    count
}
