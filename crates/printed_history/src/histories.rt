//! The history that a printed run tells.
ghost use Rattle.std.specs.Prelude.{◌≡◌, ◌^◌, ◌<◌, [], length, IfOk};
ghost use Rattle.scenario_file.specs.Reading.{contents};
ghost use Rattle.scenario_file.specs.Valid.{IsScenario};
ghost use Rattle.history_rules.specs.Legal.{IsLegal};
ghost use Rattle.world_rules.specs.Scenarios.{setup_of};
ghost use Rattle.world_history.specs.Benches.{benches_of};
ghost use Rattle.run_lines.specs.Runs.{ReadsRun};
ghost use Rattle.printed_history.specs.Histories.{entries_from, history_in};
ghost use Rattle.printed_history.specs.Reading.{told_history};

use crate::reading::SoFar;
use checked_frames::RingMemory;
use plain_lists::Items;
use run_lines::{EntryLine, HistoryRefusal, read_run};
use scenario_file::Scenario;
use script_grammar::Company;
use std::alloc::Global;
use world_entries::History;
use world_history::Bench;

/// A history that was read, with the benches on which its actors did what it says: one for each, in the order of their numbers.
pub struct Replay {
    pub history: History,
    pub benches: Vec<Bench>,
}

// Taken apart here once, so that no function proves it again.
impl Drop for Replay {
    fn drop(self) {
        let Replay {
            history: _,
            benches: _,
        } = self;
    }
}

impl Replay {
    /// The history alone.
    pub fn into_history(self) -> History
        ensures { result ≡ self.history }
    {
        let Replay {
            history,
            benches: _,
        } = self;
        history
    }
}

/// The history that the text of a run tells.
pub fn read_history(
    alloc: Global,
    scenario: &Scenario,
    bytes: &[u8],
) -> Result<History, HistoryRefusal>
    requires { IsScenario (contents scenario.now) }
    ensures history { ReadsRun result (history_in (contents scenario.now) bytes.now) }
    ensures legal { IfOk result (λ history. IsLegal (setup_of (contents scenario.now)) history) }
    ensures short { IfOk result (λ history. length history < 2 ^ 32) }
{
    match read_replay(alloc, scenario, bytes) {
        Ok(replay) => Ok(replay.into_history()),
        Err(refusal) => Err(refusal),
    }
}

/// The history that the text of a run tells, with its actors' benches, so that nobody has to replay it again. The lines' form is
/// tried first, over all of them, and then whether each entry can come after those before it.
#[tactic(auto, unfolding(crate::specs::Histories::history_in))]
pub fn read_replay(
    alloc: Global,
    scenario: &Scenario,
    bytes: &[u8],
) -> Result<Replay, HistoryRefusal>
    requires { IsScenario (contents scenario.now) }
    ensures history { ReadsRun (told_history result) (history_in (contents scenario.now) bytes.now) }
    ensures legal { IfOk result (λ replay. IsLegal (setup_of (contents scenario.now)) replay.history) }
    ensures short { IfOk result (λ replay. length replay.history < 2 ^ 32) }
    ensures benches { IfOk result (λ replay. replay.benches.items ≡ benches_of (contents scenario.now) replay.history) }
{
    let company = Company::of(alloc, scenario);
    match read_run(&company, bytes) {
        Ok(lines) => replay_of(alloc, scenario, lines),
        Err(refusal) => Err(refusal),
    }
}

/// The history of these lines, with its benches.
fn replay_of(
    alloc: Global,
    scenario: &Scenario,
    lines: Items<EntryLine>,
) -> Result<Replay, HistoryRefusal>
    requires scenario { IsScenario (contents scenario.now) }
    requires few { length lines < 2 ^ 32 }
    ensures history { ReadsRun (told_history result) (entries_from (setup_of (contents scenario.now)) [] lines) }
    ensures legal { IfOk result (λ replay. IsLegal (setup_of (contents scenario.now)) replay.history) }
    ensures short { IfOk result (λ replay. length replay.history < 2 ^ 32) }
    ensures benches { IfOk result (λ replay. replay.benches.items ≡ benches_of (contents scenario.now) replay.history) }
{
    let mut so_far = SoFar::begin(alloc, scenario)?;
    let mut memory = RingMemory::new(alloc, &so_far.ring);
    for line in lines.into_vec() {
        let stamp = so_far.history.len() as u64;
        let comes = so_far.add(&mut memory, line)?;
        if !comes {
            return Err(HistoryRefusal::NotLegal { stamp });
        }
    }
    Ok(so_far.into_replay())
}
