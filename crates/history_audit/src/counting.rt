ghost use Rattle.std.specs.Prelude.{◌≡◌, ◌++◌, ◌∷◌, ◌<◌, ◌≤◌, ◌^◌, ◌&&◌, not, if◌then◌else◌, ℕ, List, [], length, filter, map, IsTrue, IfOk, OnOk};
ghost use Rattle.std.specs.List.{flat_map, list_all};
ghost use Rattle.message_types.specs.Parts.{parts as parts_of_frame};
ghost use Rattle.message_types.specs.Spelling.{body_fits};
ghost use Rattle.protocol_rules.specs.Group.{Group};
ghost use Rattle.protocol_rules.specs.Master.{taken_frames};
ghost use Rattle.history_rules.specs.Events.{Entry as HistoryEntry, frame_taken};
ghost use Rattle.history_rules.specs.Setup.{Setup, is_correct as is_correct_in};
ghost use Rattle.history_rules.specs.Audit.{parts_taken as parts_taken_at, bodies_of, texts_of};
ghost use Rattle.history_rules.specs.Counts.{forged, alike, intruded_masters, is_forged as is_forged_in};
ghost use Rattle.quorum_sets.specs.Masters.{voters, has_master};
ghost use Rattle.scenario_file.specs.Reading.{contents};
ghost use Rattle.scenario_file.specs.Valid.{IsScenario};
ghost use Rattle.world_entries.specs.Entries.{entry_of, event_of};
ghost use Rattle.world_rules.specs.Scenarios.{setup_of, group_in};
ghost use Rattle.history_audit.specs.Counting.{are_spelled, HasMasters};
ghost use Rattle.history_audit.specs.Said.{words_said, HasWords};
ghost use Rattle.history_audit.specs.Texts.{AreTexts};

use crate::said::{Said, is_said, note_words};
use crate::texts::{Texts, note_bodies, note_parts};
use indexmap::IndexMap;
use message_types::{Frame, parts_of};
use plain_lists::Want;
use scenario_file::Scenario;
use std::alloc::Global;
use world_entries::{Entry, Event, History};

/// What an audit counts: the parts of taken frames that bear words which their correct signers hadn't said, the texts that
/// share a digest with another that came before, and the masters that are intruded.
#[derive(Clone, Copy)]
pub struct Counts {
    pub forged: u64,
    pub alike: u64,
    pub intruded: u32,
}

/// The counts of a history. A legal one of at most 2^32 entries of each actor has fewer than 2^52 (`laws::few_each`), so few
/// that each count fits 64 bits, and all its words have spellings (`laws::legal_are_spelled`).
pub fn audit(alloc: Global, scenario: &Scenario, history: &History) -> Result<Counts, Want>
    requires scenario { IsScenario (contents scenario.now) }
    requires short { length history.now < 2 ^ 52 }
    requires spelled { IsTrue (are_spelled history.now) }
    ensures forged { IfOk result (λ counts. counts.forged ≡ forged (setup_of (contents scenario.now)) history.now) }
    ensures alike { IfOk result (λ counts. counts.alike ≡ alike (group_in (contents scenario.now)) history.now) }
    ensures intruded { IfOk result (λ counts. counts.intruded ≡ intruded_masters (setup_of (contents scenario.now))) }
{
    audit_entries(alloc, scenario, history.entries())
}

/// The counts of a history whose entries are at hand. Each part of a frame is looked at once where it is taken, and nothing
/// that came before is looked through.
pub fn audit_entries(alloc: Global, scenario: &Scenario, entries: &[Entry]) -> Result<Counts, Want>
    requires scenario { IsScenario (contents scenario.now) }
    requires short { length entries.now < 2 ^ 52 }
    requires spelled { IsTrue (are_spelled (map entry_of entries.now)) }
    ensures forged { IfOk result (λ counts. counts.forged ≡ forged (setup_of (contents scenario.now)) (map entry_of entries.now)) }
    ensures alike { IfOk result (λ counts. counts.alike ≡ alike (group_in (contents scenario.now)) (map entry_of entries.now)) }
    ensures intruded { IfOk result (λ counts. counts.intruded ≡ intruded_masters (setup_of (contents scenario.now))) }
{
    let mut said = IndexMap::new(alloc);
    let mut texts = Texts::new(alloc);
    let mut forged = 0u64;
    for entry in entries {
        forged += take_entry(alloc, scenario, &mut said, &mut texts, entry)?;
    }
    Ok(Counts {
        forged,
        alike: texts.alike(),
        intruded: count_intruded(scenario),
    })
}

/// Takes the next entry, and tells how many of the words that it took are forged: those said at entries before it are known.
fn take_entry<'a>(
    alloc: Global,
    scenario: &Scenario,
    said: &mut Said<'a>,
    texts: &mut Texts,
    entry: &'a Entry,
) -> Result<u64, Want>
    requires { IsTrue (list_all body_fits entry.now.said) }
    ensures few { IfOk result (λ count. count ≤ 3347) }
    ensures forged { IfOk result (λ count. (w : Setup) (before : List HistoryEntry) → HasMasters scenario.now.sizes.n scenario.now.intruded w
        → HasWords (words_said before) said.old → count ≡ length (filter (is_forged_in w before) (parts_taken_at (entry_of entry.now)))) }
    ensures said { OnOk result ((before : List HistoryEntry) → HasWords (words_said before) said.old
        → HasWords (words_said (before ++ entry_of entry.now ∷ [])) said.new) }
    ensures texts { OnOk result ((g : Group) → scenario.now.sizes.n ≡ g.n → (given : List (List ℕ)) → AreTexts given texts.old
        → AreTexts (given ++ flat_map (texts_of g) (bodies_of (entry_of entry.now))) texts.new) }
{
    let parts = parts_taken(alloc, &entry.event)?;
    let list = parts.as_slice();
    let forged = count_forged(scenario, said, list);
    note_parts(alloc, &scenario.sizes, texts, list)?;
    note_bodies(alloc, &scenario.sizes, texts, entry.said.as_slice())?;
    note_words(alloc, said, entry.actor, entry.said.as_slice())?;
    Ok(forged)
}

/// The parts of the frame that an event takes.
fn parts_taken(alloc: Global, event: &Event) -> Result<Vec<Frame>, Want>
    ensures parts { IfOk result (λ parts. parts.items ≡ flat_map parts_of_frame (taken_frames (frame_taken (event_of event.now)))) }
    ensures few { IfOk result (λ parts. length parts.items ≤ 3347) }
    ensures spelled { IfOk result (λ parts. IsTrue (list_all (λ p. body_fits p.body) parts.items)) }
{
    match event {
        Event::Took { frame, .. } => {
            let parts = parts_of(alloc, frame.frame())?;
            Ok(parts)
        }
        _ => Ok(Vec::new(alloc)),
    }
}

fn count_forged(scenario: &Scenario, said: &Said<'_>, parts: &[Frame]) -> u64
    requires { length parts.now ≤ 3347 }
    ensures few { result ≤ length parts.now }
    ensures forged { (w : Setup) (before : List HistoryEntry) → HasMasters scenario.now.sizes.n scenario.now.intruded w
        → HasWords (words_said before) said.now → result ≡ length (filter (is_forged_in w before) parts.now) }
{
    let mut forged = 0u64;
    for part in parts {
        forged += one_if(is_forged(scenario, said, part));
    }
    forged
}

/// Whether a part bears the name of a correct actor that didn't say it.
fn is_forged(scenario: &Scenario, said: &Said<'_>, part: &Frame) -> bool
    ensures { (w : Setup) (before : List HistoryEntry) → HasMasters scenario.now.sizes.n scenario.now.intruded w
        → HasWords (words_said before) said.now → result ≡ is_forged_in w before part.now }
{
    let correct = is_correct(scenario, part.signer);
    let told = is_said(said, part.signer, &part.body);
    is_unsaid(correct, told)
}

fn is_unsaid(correct: bool, told: bool) -> bool
    ensures { result ≡ (correct && not told) }
{
    correct && !told
}

fn one_if(passes: bool) -> u64
    ensures one { result ≡ (if passes then 1 else 0) }
    ensures most { result ≤ 1 }
{
    if passes { 1 } else { 0 }
}

fn is_correct(scenario: &Scenario, actor: u32) -> bool
    ensures { (w : Setup) → HasMasters scenario.now.sizes.n scenario.now.intruded w → result ≡ is_correct_in w actor }
{
    !(actor < scenario.sizes.n && scenario.intruded.has(actor))
}

fn count_intruded(scenario: &Scenario) -> u32
    ensures { result ≡ length (voters (has_master scenario.now.intruded) scenario.now.sizes.n) }
{
    let mut count = 0u64;
    for master in 0..scenario.sizes.n {
        count += one_if(scenario.intruded.has(master));
    }
    count as u32
}
