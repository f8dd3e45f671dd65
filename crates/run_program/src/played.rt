//! The text of a play.
ghost use Rattle.std.specs.Prelude.{◌≡◌, true, map, List, IfOk};
ghost use Rattle.scenario_file.specs.Reading.{contents};
ghost use Rattle.scenario_file.specs.Valid.{IsScenario};
ghost use Rattle.script_laws.specs.Accepted.{are_lines_of, are_sayings_of};
ghost use Rattle.history_rules.specs.Counts.{merged};
ghost use Rattle.history_rules.specs.Events.{Entry};
ghost use Rattle.world_history.specs.Benches.{lists_of};
ghost use Rattle.run_commands.specs.Readers.{PlayGives};
ghost use Rattle.run_program.specs.Whole.{program_readers, AreAfter, CanBePrinted, IsTextOf};

use crate::faults::play_refusal;
use command_ends::Refusal;
use plain_lists::Want;
use printed_laws::texts_tell_histories;
use printed_run::write_run_of;
use run_scripts::laws::played_is_legal;
use run_scripts::play;
use scenario_file::Scenario;
use script_lines::{Script, Words};
use std::alloc::Global;
use world_history::{Bench, Kept, benches_of, merge};

/// The text of the play of a script and words, or the line at which it stops.
pub(crate) fn played_text(
    alloc: Global,
    scenario: &Scenario,
    script: &Script,
    words: &Words,
) -> Result<Vec<u8>, Refusal>
    requires valid { IsScenario (contents scenario.now) }
    requires lines { are_lines_of (contents scenario.now) script.now ≡ true }
    requires words { are_sayings_of (contents scenario.now) words.now ≡ true }
    ensures { PlayGives program_readers (contents scenario.now) script.now words.now result }
{
    played_is_legal();
    match play(alloc, scenario, script, words) {
        Ok(kept) => match text_of_kept(alloc, scenario, kept) {
            Ok(text) => Ok(text),
            Err(Want) => Err(Refusal::Memory),
        },
        Err(answer) => Err(play_refusal(answer)),
    }
}

/// The text of the history that the actors of a play made.
fn text_of_kept(alloc: Global, scenario: &Scenario, kept: Vec<Kept>) -> Result<Vec<u8>, Want>
    requires valid { IsScenario (contents scenario.now) }
    requires kept { (history : List Entry) × AreAfter (contents scenario.now) history (map (λ k. k.bench) kept.items) }
    ensures { IfOk result (λ text. (history : List Entry) → AreAfter (contents scenario.now) history (map (λ k. k.bench) kept.items)
        → IsTextOf (contents scenario.now) history text.items) }
{
    let benches = benches_of(alloc, kept)?;
    text_of_benches(alloc, scenario, benches.as_slice())
}

/// The text of the history that the benches of all actors merge to. They have each entry once, and nothing is replayed.
pub(crate) fn text_of_benches(
    alloc: Global,
    scenario: &Scenario,
    benches: &[Bench],
) -> Result<Vec<u8>, Want>
    requires valid { IsScenario (contents scenario.now) }
    requires benches { CanBePrinted (contents scenario.now) benches.now }
    ensures { IfOk result (λ text. IsTextOf (contents scenario.now) (merged (lists_of benches.now)) text.items) }
{
    texts_tell_histories();
    let history = merge(alloc, benches)?;
    write_run_of(alloc, scenario, &history, benches)
}
