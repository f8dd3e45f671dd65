//! The text of what stations kept, merged.
ghost use Rattle.std.specs.Prelude.{◌≡◌, ◌≤◌, length, map};
ghost use Rattle.scenario_file.specs.Reading.{contents};
ghost use Rattle.scenario_file.specs.Valid.{IsScenario};
ghost use Rattle.command_words.specs.declared.command_line.TheConstants.{MOST_KEEPS};
ghost use Rattle.run_commands.specs.Readers.{AreShort, MergeGives};
ghost use Rattle.run_program.specs.Merges.{TellsFault, ToldName, fault_of};
ghost use Rattle.run_program.specs.Whole.{program_readers};

use command_ends::{KeepFault, Refusal};
use joined_histories::{JoinRefusal, join};
use plain_lists::{Bytes, Text, Want};
use printed_laws::texts_tell_histories;
use printed_run::write_run_of;
use scenario_file::Scenario;
use std::alloc::Global;

/// The text of a history that joins what stations kept in files of these names, or why there is none. Its actors do what it says
/// once more.
pub(crate) fn merged_text(
    alloc: Global,
    scenario: &Scenario,
    names: &[&str],
    kept: &[Bytes],
) -> Result<Vec<u8>, Refusal>
    requires valid { IsScenario (contents scenario.now) }
    requires few { length kept.now ≤ MOST_KEEPS }
    requires short { AreShort kept.now }
    ensures { MergeGives program_readers (contents scenario.now) (map (λ name. name.now) names.now) kept.now result }
{
    texts_tell_histories();
    match join(alloc, scenario, kept) {
        Ok(replay) => match write_run_of(alloc, scenario, &replay.history, &replay.benches) {
            Ok(text) => Ok(text),
            Err(Want) => Err(Refusal::Memory),
        },
        Err(refusal) => Err(join_refusal(alloc, names, refusal)),
    }
}

/// Why files aren't joined, as the program tells it.
fn join_refusal(alloc: Global, names: &[&str], refusal: JoinRefusal) -> Refusal
    ensures { TellsFault (map (λ name. name.now) names.now) refusal result }
{
    let Some((file, fault)) = fault_of(refusal) else {
        return Refusal::Memory;
    };
    match name_of(alloc, names, file) {
        Ok(name) => Refusal::Keep { name, fault },
        Err(Want) => Refusal::Memory,
    }
}

/// The place of the file, and what is wrong with it.
fn fault_of(refusal: JoinRefusal) -> Option<(u64, KeepFault)>
    ensures { result ≡ fault_of refusal }
{
    match refusal {
        JoinRefusal::BadLine { file, line } => Some((file, KeepFault::BadLine { line })),
        JoinRefusal::NotLegal { file, stamp } => Some((file, KeepFault::NotLegal { stamp })),
        JoinRefusal::OtherWords { file, stamp } => Some((file, KeepFault::OtherWords { stamp })),
        JoinRefusal::Twice { file } => Some((file, KeepFault::Twice)),
        JoinRefusal::Want => None,
    }
}

/// The name of a file, by its place.
fn name_of(alloc: Global, names: &[&str], file: u64) -> Result<Text, Want>
    ensures { ToldName (map (λ name. name.now) names.now) file result }
{
    match names.get(file as usize) {
        Some(name) => Text::from_str(alloc, name),
        None => Text::from_str(alloc, ""),
    }
}
