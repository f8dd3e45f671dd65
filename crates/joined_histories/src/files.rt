//! What the files of stations tell.
ghost use Rattle.std.specs.Prelude.{◌≡◌, ◌<◌, [], IfOk, OnOk, false, length, replicate, slice_get};
ghost use Rattle.std.specs.List.{All};
ghost use Rattle.scenario_file.specs.Reading.{contents};
ghost use Rattle.scenario_file.specs.Valid.{IsScenario};
ghost use Rattle.script_grammar.specs.Names.{who_of};
ghost use Rattle.world_rules.specs.Scenarios.{actors_in};
ghost use Rattle.run_lines.specs.Runs.{pieces};
ghost use Rattle.kept_lines.specs.Reading.{Reads, entry_part, fault_at};
ghost use Rattle.joined_histories.specs.Files.{AddsFile, AreKept, IsShort, KeepsStations, ReadsFiles, bytes_in, files_in, given_of, owner_by, there, with_file, with_list, with_more};

use crate::refusal::{JoinRefusal, of_file};
use kept_lines::{KeptRefusal, reopen};
use plain_lists::{Bytes, Want};
use printed_history::SoFar;
use run_lines::{EntryLine, first_line, read_entry_line};
use scenario_file::Scenario;
use script_grammar::{Company, LineRefusal};
use std::alloc::Global;
use world_entries::History;

/// How many bytes the digest behind a kept line takes, with the word before it.
const DIGEST: usize = 72;

/// What files tell of a scenario's actors, by the actors' numbers.
pub struct Kept {
    /// What each one's file has: nothing, where it gave none.
    pub lists: Vec<History>,
    /// Whether it gave one.
    pub gave: Vec<bool>,
}

// Taken apart here once, so that no function proves it again.
impl Drop for Kept {
    fn drop(self) {
        let Kept { lists: _, gave: _ } = self;
    }
}

impl Kept {
    /// Before the first file.
    fn none(alloc: Global, actors: u32) -> Result<Kept, Want>
        ensures { IfOk result (λ kept. given_of kept ≡ record { lists = replicate actors []; gave = replicate actors false }) }
    {
        let mut lists = Vec::with_capacity(alloc, actors as usize)?;
        for _actor in 0..actors {
            lists.push(History::new(alloc))?;
        }
        let gave = vec![in alloc; false; actors as usize]?;
        Ok(Kept { lists, gave })
    }

    /// Sets the list of an actor that has given none.
    fn put(&mut self, actor: usize, list: History)
        requires there { actor < length self.old.lists.items }
        requires gave { actor < length self.old.gave.items }
        ensures { given_of self.new ≡ with_list (given_of self.old) actor list }
    {
        self.lists[actor] = list;
        self.gave[actor] = true;
    }
}

/// A line without its digest.
fn entry_part(line: &[u8]) -> &[u8]
    ensures { result.now ≡ entry_part line.now }
{
    &line[..line.len().saturating_sub(DIGEST)]
}

/// Why the first line of a file isn't read.
fn first_fault(fault: LineRefusal) -> KeptRefusal
    ensures { result ≡ fault_at 1 fault }
{
    match fault {
        LineRefusal::Want => KeptRefusal::Want,
        LineRefusal::BadLine | LineRefusal::NoActor => KeptRefusal::BadLine { line: 1 },
    }
}

/// The actor that a line names, if the scenario has it.
fn named(told: EntryLine) -> Result<Option<u32>, KeptRefusal>
    ensures { result ≡ there told.actor }
{
    match told.actor {
        Some(actor) => Ok(Some(actor)),
        None => Err(KeptRefusal::NotLegal { stamp: 0 }),
    }
}

/// Whose file it is.
fn owner(company: &Company<'_>, bytes: &[u8]) -> Result<Option<u32>, KeptRefusal>
    ensures { Reads result (owner_by company.now.cast (pieces bytes.now)) }
{
    let Some((line, _)) = first_line(bytes) else {
        return Ok(None);
    };
    match read_entry_line(company, entry_part(line)) {
        Ok(told) => named(told),
        Err(fault) => Err(first_fault(fault)),
    }
}

/// The list that was read.
fn list_of(so_far: SoFar<'_>) -> History
    ensures { result ≡ so_far.entry.history }
{
    so_far.into_replay().into_history()
}

/// Whether an actor has given a file, if the scenario has the actor.
fn has_given(kept: &Kept, actor: u32) -> Option<bool>
    ensures { result ≡ slice_get kept.now.gave.items actor }
{
    match kept.gave.get(actor as usize) {
        Some(gave) => Some(*gave),
        None => None,
    }
}

/// Adds the file of an actor, which has this place among all.
fn add_list(
    alloc: Global,
    scenario: &Scenario,
    kept: &mut Kept,
    file: u64,
    actor: u32,
    bytes: &[u8],
) -> Result<(), JoinRefusal>
    requires scenario { IsScenario (contents scenario.now) }
    requires short { IsShort bytes.now }
    requires all { length kept.old.lists.items ≡ actors_in (contents scenario.now) }
    requires alike { length kept.old.lists.items ≡ length kept.old.gave.items }
    ensures adds { AddsFile (with_more (contents scenario.now) (given_of kept.old) file actor bytes.now (slice_get kept.old.gave.items actor)) result kept.new }
    ensures keeps { OnOk result (KeepsStations (contents scenario.now) (length bytes.now) kept.old kept.new) }
{
    let Some(gave) = has_given(kept, actor) else {
        return Err(JoinRefusal::NotLegal { file, stamp: 0 });
    };
    if gave {
        return Err(JoinRefusal::Twice { file });
    }
    let begun = SoFar::begin_one(alloc, scenario, actor)?;
    match reopen(alloc, begun, actor, bytes) {
        Ok(so_far) => {
            kept.put(actor as usize, list_of(so_far));
            Ok(())
        }
        Err(why) => Err(of_file(file, why)),
    }
}

/// Adds a file, which has this place among all.
fn add_file(
    alloc: Global,
    scenario: &Scenario,
    company: &Company<'_>,
    kept: &mut Kept,
    file: u64,
    bytes: &[u8],
) -> Result<(), JoinRefusal>
    requires scenario { IsScenario (contents scenario.now) }
    requires company { company.now ≡ who_of (contents scenario.now) }
    requires short { IsShort bytes.now }
    requires all { length kept.old.lists.items ≡ actors_in (contents scenario.now) }
    requires alike { length kept.old.lists.items ≡ length kept.old.gave.items }
    ensures adds { AddsFile (with_file (contents scenario.now) (given_of kept.old) file bytes.now) result kept.new }
    ensures keeps { OnOk result (KeepsStations (contents scenario.now) (length bytes.now) kept.old kept.new) }
{
    match owner(company, bytes) {
        Ok(Some(actor)) => add_list(alloc, scenario, kept, file, actor, bytes),
        Ok(None) => Ok(()),
        Err(why) => Err(of_file(file, why)),
    }
}

/// What files tell.
#[tactic(auto, unfolding(crate::specs::Files::files_in))]
pub(crate) fn read_files(
    alloc: Global,
    scenario: &Scenario,
    files: &[Bytes],
) -> Result<Kept, JoinRefusal>
    requires scenario { IsScenario (contents scenario.now) }
    requires short { All IsShort files.now }
    ensures read { ReadsFiles result (files_in (contents scenario.now) files.now) }
    ensures stations { IfOk result (AreKept (contents scenario.now) (bytes_in files.now)) }
{
    let company = Company::of(alloc, scenario);
    let mut kept = Kept::none(alloc, scenario.cast().actors())?;
    let mut rest = files;
    while let Some((bytes, after)) = rest.split_first() {
        let file = (files.len() - rest.len()) as u64;
        match add_file(alloc, scenario, &company, &mut kept, file, bytes.as_slice()) {
            Ok(()) => rest = after,
            Err(refusal) => return Err(refusal),
        }
    }
    Ok(kept)
}
