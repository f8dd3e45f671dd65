//! Lists joined to one history.
ghost use Rattle.std.specs.Prelude.{◌≡◌, ◌≤◌, ◌<◌, ◌+◌, ◌*◌, ◌^◌, None, IfOk, OnOk, length, set, slice_index, true};
ghost use Rattle.std.specs.List.{All};
ghost use Rattle.scenario_file.specs.Reading.{contents};
ghost use Rattle.scenario_file.specs.Valid.{IsScenario};
ghost use Rattle.world_entries.specs.Entries.{event_of};
ghost use Rattle.world_history.specs.Benches.{benches_of};
ghost use Rattle.world_rules.specs.Scenarios.{setup_of};
ghost use Rattle.printed_history.specs.Reading.{IsSoFar, contents_in, world_in};
ghost use Rattle.joint_lists.specs.Joint.{AreStations, IsJoint, count};
ghost use Rattle.joint_lists.specs.Joining.{placed};
ghost use Rattle.joined_histories.specs.Files.{IsShort, bytes_in};
ghost use Rattle.joined_histories.specs.Amid.{IsAmid};
ghost use Rattle.joined_histories.specs.Order.{AllWait, is_left, next_waits};
ghost use Rattle.joined_histories.specs.Early.{EarlyOnlyWhereAllAre};
ghost use Rattle.joined_histories.specs.Joins.{Joins};

use crate::digests::Heard;
use crate::files::{Kept, read_files};
use crate::order::next_actor;
use crate::refusal::JoinRefusal;
use crate::waits::next_entry;
use plain_lists::{Bytes, Copied, Want};
use printed_history::{Replay, SoFar};
use scenario_file::Scenario;
use std::alloc::Global;
use world_entries::Event;

/// One history that joins what the files of stations tell, each actor's entries being those that it kept. An entry that takes a
/// correct actor's word comes behind the one that said it, where any order of the entries allows it; a word that its signer
/// says in no file counts as said by nobody, wherever it stands. The actors' benches come with it.
pub fn join(alloc: Global, scenario: &Scenario, files: &[Bytes]) -> Result<Replay, JoinRefusal>
    requires scenario { IsScenario (contents scenario.now) }
    requires short { All IsShort files.now }
    requires together { bytes_in files.now < 72 * 2 ^ 32 }
    ensures joins { Joins (contents scenario.now) files.now result }
    ensures short { IfOk result (λ replay. length replay.history < 2 ^ 32) }
    ensures benches { IfOk result (λ replay. replay.benches.items ≡ benches_of (contents scenario.now) replay.history) }
{
    match read_files(alloc, scenario, files) {
        Ok(kept) => match joined(alloc, scenario, &kept) {
            Ok(so_far) => Ok(so_far.into_replay()),
            Err(Want) => Err(JoinRefusal::Want),
        },
        Err(refusal) => Err(refusal),
    }
}

/// The lists joined.
fn joined<'a>(alloc: Global, scenario: &'a Scenario, kept: &Kept) -> Result<SoFar<'a>, Want>
    requires scenario { IsScenario (contents scenario.now) }
    requires stations { AreStations (contents scenario.now) kept.now.lists.items }
    requires few { count kept.now.lists.items < 2 ^ 32 }
    ensures at_hand { IfOk result (λ so_far. IsSoFar so_far × (contents_in so_far ≡ contents scenario.now) × (so_far.only ≡ None)) }
    ensures joint { IfOk result (λ so_far. IsJoint (contents scenario.now) kept.now.lists.items so_far.history) }
    ensures order { IfOk result (λ so_far. EarlyOnlyWhereAllAre (setup_of (contents scenario.now)) so_far.history) }
    ensures short { IfOk result (λ so_far. length so_far.history < 2 ^ 32) }
{
    let mut so_far = SoFar::begin(alloc, scenario)?;
    let mut next = vec![in alloc; 0usize; kept.lists.len()]?;
    let mut heard = Heard::none(alloc, kept)?;
    let actors = scenario.cast().actors();
    let mut due = next_actor(alloc, scenario, kept, next.as_slice(), &heard, 0, actors)?;
    while let Some(actor) = due {
        add_next(alloc, &mut so_far, kept, actor, &mut next, &mut heard)?;
        let counts = next.as_slice();
        heard.wait_again(alloc, kept, actor, counts)?;
        let from = actor.saturating_add(1);
        let later = next_actor(alloc, scenario, kept, counts, &heard, from, actors)?;
        due = later;
    }
    Ok(so_far)
}

/// An event with another place from which its frame comes.
fn placed(event: &Event, stamp: u64, place: u32) -> Result<Event, Want>
    ensures { IfOk result (λ made. event_of made ≡ placed stamp place (event_of event.now)) }
{
    match event {
        Event::Took { frame, .. } => Ok(Event::Took {
            stamp,
            place,
            frame: frame.copy()?,
        }),
        other => other.copy(),
    }
}

/// Counts one entry more of an actor as joined.
fn count_one(next: &mut Vec<usize>, actor: u32)
    requires there { actor < length next.old.items }
    requires short { slice_index next.old.items actor < 2 ^ 32 }
    ensures { next.new.items ≡ set next.old.items actor (slice_index next.old.items actor + 1) }
{
    next[actor as usize] += 1;
}

/// Adds the next entry of an actor that has one left, which waits only where all do.
fn add_next(
    alloc: Global,
    so_far: &mut SoFar<'_>,
    kept: &Kept,
    actor: u32,
    next: &mut Vec<usize>,
    heard: &mut Heard,
) -> Result<(), Want>
    requires amid { IsAmid (contents_in so_far.old) kept.now.lists.items next.old.items so_far.old }
    requires left { is_left kept.now.lists.items next.old.items actor ≡ true }
    requires waits { next_waits (world_in so_far.old) kept.now.lists.items next.old.items actor ≡ true → AllWait (world_in so_far.old) kept.now.lists.items next.old.items }
    ensures amid { OnOk result (IsAmid (contents_in so_far.old) kept.now.lists.items next.new.items so_far.new) }
    ensures longer { OnOk result (length so_far.new.history ≡ length so_far.old.history + 1) }
{
    let stamp = so_far.history.len() as u64;
    let (from, place) = heard.origin(actor, stamp);
    let event = placed(&next_entry(kept, next, actor).event, from, place)?;
    so_far.enter(actor, event)?;
    count_one(next, actor);
    match so_far.posted.get(stamp as usize) {
        Some(frames) => heard.note_said(alloc, stamp, frames.as_slice()),
        None => Ok(()),
    }
}
