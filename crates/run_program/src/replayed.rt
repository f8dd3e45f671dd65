//! The text of a replay.
ghost use Rattle.scenario_file.specs.Reading.{contents};
ghost use Rattle.scenario_file.specs.Valid.{IsScenario};
ghost use Rattle.run_commands.specs.Readers.{ReplayGives};
ghost use Rattle.run_program.specs.Whole.{program_readers};

use crate::faults::history_refusal;
use command_ends::Refusal;
use plain_lists::Want;
use printed_history::read_replay;
use printed_laws::texts_tell_histories;
use printed_run::write_run_of;
use scenario_file::Scenario;
use std::alloc::Global;

/// The text of the history that a printed text tells, or why it tells none. Its actors do what it says once.
pub(crate) fn replayed_text(
    alloc: Global,
    scenario: &Scenario,
    text: &[u8],
) -> Result<Vec<u8>, Refusal>
    requires { IsScenario (contents scenario.now) }
    ensures { ReplayGives program_readers (contents scenario.now) text.now result }
{
    texts_tell_histories();
    match read_replay(alloc, scenario, text) {
        Ok(replay) => match write_run_of(alloc, scenario, &replay.history, &replay.benches) {
            Ok(text) => Ok(text),
            Err(Want) => Err(Refusal::Memory),
        },
        Err(refusal) => Err(history_refusal(refusal)),
    }
}
