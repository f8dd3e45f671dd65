//! Which entries wait for words that are still to come.
ghost use Rattle.std.specs.Prelude.{◌≡◌, ◌&&◌, not, map, true, IfOk, slice_get, slice_index, slice_index_or};
ghost use Rattle.std.specs.List.{flat_map, list_any};
ghost use Rattle.message_types.specs.Parts.{parts as parts_of_frame};
ghost use Rattle.protocol_rules.specs.Master.{taken_frames};
ghost use Rattle.history_rules.specs.Events.{frame_taken};
ghost use Rattle.history_rules.specs.Setup.{Setup, is_correct as is_correct_in};
ghost use Rattle.history_rules.specs.Sameness.{is_same_body};
ghost use Rattle.history_audit.specs.Counting.{HasMasters};
ghost use Rattle.scenario_file.specs.Reading.{contents};
ghost use Rattle.world_entries.specs.Entries.{entry_of, event_of};
ghost use Rattle.world_rules.specs.Scenarios.{setup_of};
ghost use Rattle.joint_lists.specs.Joint.{kept_by};
ghost use Rattle.joined_histories.specs.Order.{comes_later, is_left, later_in, next_waits, says, waits_for};

use crate::files::Kept;
use message_types::{Body, Frame, parts_of};
use plain_lists::{Same, Want};
use scenario_file::Scenario;
use std::alloc::Global;
use world_entries::{Entry, Event, History};

fn is_same_word(a: &Body, b: &Body) -> bool
    ensures { result ≡ is_same_body a.now b.now }
{
    a.is_same(b)
}

/// Whether an entry says a body.
fn says(entry: &Entry, body: &Body) -> bool
    ensures { result ≡ says body.now (entry_of entry.now) }
{
    entry
        .said
        .as_slice()
        .iter()
        .any(|said| is_same_word(body, said))
}

/// Whether a body is said at one of these entries. The last ones are looked at first, since most words are taken soon.
fn was_said(entries: &[Entry], body: &Body) -> bool
    ensures { result ≡ list_any (says body.now) (map entry_of entries.now) }
{
    let mut rest = entries;
    while let Some((last, before)) = rest.split_last() {
        if says(last, body) {
            return true;
        }
        rest = before;
    }
    false
}

/// The same, where the first ones are looked at first.
fn is_said_soon(entries: &[Entry], body: &Body) -> bool
    ensures { result ≡ list_any (λ e. says body.now (entry_of e)) entries.now }
{
    entries.iter().any(|entry| says(entry, body))
}

/// Whether of a list of which so many entries were joined none of these says a body, but one that is left does.
fn comes_later(list: &History, joined: usize, body: &Body) -> bool
    ensures { result ≡ comes_later body.now list.now joined }
{
    match list.entries().split_at_checked(joined) {
        Some((before, after)) => is_new_in(before, after, body),
        None => false,
    }
}

fn is_new_in(before: &[Entry], after: &[Entry], body: &Body) -> bool
    ensures { result ≡ (not (list_any (says body.now) (map entry_of before.now)) && list_any (λ e. says body.now (entry_of e)) after.now) }
{
    !was_said(before, body) && is_said_soon(after, body)
}

/// Whether an actor is still to say a body.
fn is_later(kept: &Kept, next: &[usize], actor: u32, body: &Body) -> bool
    ensures { result ≡ later_in body.now (slice_get kept.now.lists.items actor) (slice_get next.now actor) }
{
    match kept.lists.get(actor as usize) {
        Some(list) => match next.get(actor as usize) {
            Some(joined) => comes_later(list, *joined, body),
            None => false,
        },
        None => false,
    }
}

fn is_correct(scenario: &Scenario, actor: u32) -> bool
    ensures { (w : Setup) → HasMasters scenario.now.sizes.n scenario.now.intruded w → result ≡ is_correct_in w actor }
{
    !(actor < scenario.sizes.n && scenario.intruded.has(actor))
}

/// Whether a part bears a word of a correct actor that is still to come.
fn waits_for(scenario: &Scenario, kept: &Kept, next: &[usize], part: &Frame) -> bool
    ensures { (w : Setup) → HasMasters scenario.now.sizes.n scenario.now.intruded w → result ≡ waits_for w kept.now.lists.items next.now part.now }
{
    if is_correct(scenario, part.signer) {
        return is_later(kept, next, part.signer, &part.body);
    }
    false
}

/// Whether one of these parts does.
fn one_waits(scenario: &Scenario, kept: &Kept, next: &[usize], parts: &[Frame]) -> bool
    ensures { result ≡ list_any (waits_for (setup_of (contents scenario.now)) kept.now.lists.items next.now) parts.now }
{
    for part in parts {
        if waits_for(scenario, kept, next, part) {
            return true;
        }
    }
    false
}

/// The parts of the frame that an event takes.
fn parts_taken(alloc: Global, event: &Event) -> Result<Vec<Frame>, Want>
    ensures { IfOk result (λ parts. parts.items ≡ flat_map parts_of_frame (taken_frames (frame_taken (event_of event.now)))) }
{
    match event {
        Event::Took { frame, .. } => {
            let parts = parts_of(alloc, frame.frame())?;
            Ok(parts)
        }
        _ => Ok(Vec::new(alloc)),
    }
}

/// The next entry of an actor that has one left, as the actor kept it.
pub(crate) fn next_entry<'k>(kept: &'k Kept, next: &[usize], actor: u32) -> &'k Entry
    requires { is_left kept.now.lists.items next.now actor ≡ true }
    ensures { entry_of result.now ≡ slice_index_or (kept_by kept.now.lists.items actor) (slice_index next.now actor) (entry_of result.now) }
{
    let place = actor as usize;
    let list = kept.lists[place].entries();
    &list[next[place]]
}

/// Whether the next entry of an actor that has one left takes a word that is still to come.
pub(crate) fn next_waits(
    alloc: Global,
    scenario: &Scenario,
    kept: &Kept,
    next: &[usize],
    actor: u32,
) -> Result<bool, Want>
    requires { is_left kept.now.lists.items next.now actor ≡ true }
    ensures { IfOk result (λ waits. waits ≡ next_waits (setup_of (contents scenario.now)) kept.now.lists.items next.now actor) }
{
    let parts = parts_taken(alloc, &next_entry(kept, next, actor).event)?;
    Ok(one_waits(scenario, kept, next, parts.as_slice()))
}
