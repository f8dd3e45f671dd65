//! The text of what stations kept, merged.
ghost use Rattle.std.specs.Prelude.{◌≡◌, ◌≤◌, ◌++◌, ℕ, true, List, [], ◌∷◌, Ok, OnOk, length, map};
ghost use Rattle.scenario_file.specs.Reading.{contents};
ghost use Rattle.scenario_file.specs.Valid.{IsScenario};
ghost use Rattle.command_ends.specs.Calls.{TextCause, FaultsOfFiles};
ghost use Rattle.run_commands.specs.Readers.{AreShort, are_few};
ghost use Rattle.command_files.specs.Scenarios.{scenario_at};
ghost use Rattle.run_commands.specs.Course.{MergeCourse, MergeStep};
ghost use Rattle.run_commands.specs.Told.{told_merges};

use crate::opening::open_scenario;
use crate::runs::Runs;
use command_ends::{Refusal, load_kept};
use command_words::MOST_KEEPS;
use outside::Files;
use plain_lists::{Bytes, Want};
use scenario_file::Scenario;
use std::alloc::Global;

// Whether so many files may be merged.
fn are_few(count: usize) -> bool
    ensures { result ≡ are_few count }
{
    1 <= count && count <= MOST_KEEPS
}

/// The text of a history that joins what stations kept in these files.
pub(crate) fn merge<R: Runs, F: Files>(
    alloc: Global,
    runs: &R,
    scenario: &str,
    keeps: &[&str],
    files: &mut F,
) -> Result<Vec<u8>, Refusal>
    ensures file_faults { FaultsOfFiles result (F.faults files.old) (F.faults files.new) }
    ensures cause { TextCause (let names = map (λ keep. keep.now) keeps.now in MergeStep (told_merges R.readers) (are_few (length names)) scenario.now names) (F.held files.old) (F.faults files.old) (F.faults files.new) [] result }
{
    // The command line refuses other counts too, but its contract doesn't say so.
    if are_few(keeps.len()) {
        merge_few(alloc, runs, scenario, keeps, files)
    } else {
        Err(Refusal::Usage)
    }
}

// The same, of so many files as there may be.
fn merge_few<R: Runs, F: Files>(
    alloc: Global,
    runs: &R,
    scenario: &str,
    keeps: &[&str],
    files: &mut F,
) -> Result<Vec<u8>, Refusal>
    requires { are_few (length keeps.now) ≡ true }
    ensures file_faults { FaultsOfFiles result (F.faults files.old) (F.faults files.new) }
    ensures cause { TextCause (MergeCourse (told_merges R.readers) scenario.now (map (λ keep. keep.now) keeps.now)) (F.held files.old) (F.faults files.old) (F.faults files.new) [] result }
{
    match open_scenario(alloc, scenario, files) {
        Ok(scenario) => merge_from(alloc, runs, &scenario, keeps, Vec::new(alloc), files),
        Err(refusal) => Err(refusal),
    }
}

// The same, with the scenario read, and so many of the files loaded.
fn merge_from<R: Runs, F: Files>(
    alloc: Global,
    runs: &R,
    scenario: &Scenario,
    keeps: &[&str],
    loaded: Vec<Bytes>,
    files: &mut F,
) -> Result<Vec<u8>, Refusal>
    requires valid { IsScenario (contents scenario.now) }
    requires few { are_few (length keeps.now) ≡ true }
    requires some { length loaded.items ≤ length keeps.now }
    requires short { AreShort loaded.items }
    ensures file_faults { FaultsOfFiles result (F.faults files.old) (F.faults files.new) }
    ensures cause { (name first : List ℕ) → scenario_at first ≡ Ok (contents scenario.now)
        → TextCause (MergeCourse (told_merges R.readers) name (map (λ keep. keep.now) keeps.now)) (F.held files.old) (F.faults files.old) (F.faults files.new) (first ∷ loaded.items) result }
{
    let mut loaded = loaded;
    let Some(keep) = keeps.get(loaded.len()) else {
        return runs.merge_text(alloc, scenario, keeps, loaded.as_slice());
    };
    match load_kept(alloc, keep, files) {
        Ok(content) => match add_content(alloc, &mut loaded, content) {
            Ok(()) => merge_from(alloc, runs, scenario, keeps, loaded, files),
            Err(Want) => Err(Refusal::Memory),
        },
        Err(refusal) => Err(refusal),
    }
}

// Adds the content of a file.
fn add_content(alloc: Global, loaded: &mut Vec<Bytes>, content: Vec<u8>) -> Result<(), Want>
    ensures { OnOk result (loaded.new.items ≡ loaded.old.items ++ content.items ∷ []) }
{
    loaded.push(Bytes::from_vec(alloc, content)?)?;
    Ok(())
}
