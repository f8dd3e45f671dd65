//! The words of an entry.
ghost use Rattle.std.specs.Prelude.{◌≡◌, ◌≤◌, ◌++◌, OnOk, codes, string_bytes};
ghost use Rattle.std.specs.List.{flat_map};
ghost use Rattle.scenario_file.specs.Actors.{actors_of};
ghost use Rattle.world_entries.specs.Entries.{entry_of, event_of};
ghost use Rattle.history_rules.specs.Events.{Cry};
ghost use Rattle.world_rules.specs.Frames.{cried};
ghost use Rattle.run_page.specs.Details.{event_text, told_text, word_line, words_text};

use crate::words::put_word;
use message_types::{Body, Frame};
use plain_lists::Want;
use scenario_file::Cast;
use std::alloc::Global;
use world_entries::{Entry, Event};
use world_history::cried;

/// Appends the words of an entry, a line for each: that of a frame which the printed run tells by its bytes, and those that
/// its actor said.
#[tactic(auto, unfolding(crate::specs::Details::words_text))]
pub(crate) fn put_words(
    alloc: Global,
    text: &mut String,
    cast: Cast,
    entry: &Entry,
) -> Result<(), Want>
    requires { actors_of cast ≤ 26 }
    ensures { OnOk result (string_bytes text.new ≡ string_bytes text.old ++ words_text cast (entry_of entry.now)) }
{
    put_event(alloc, text, cast, entry.stamp, &entry.event)?;
    put_said(
        alloc,
        text,
        cast,
        entry.stamp,
        entry.actor,
        entry.said.as_slice(),
    )
}

#[tactic(auto, unfolding(crate::specs::Details::event_text))]
fn put_event(
    alloc: Global,
    text: &mut String,
    cast: Cast,
    stamp: u64,
    event: &Event,
) -> Result<(), Want>
    requires { actors_of cast ≤ 26 }
    ensures { OnOk result (string_bytes text.new ≡ string_bytes text.old ++ event_text cast stamp (event_of event.now)) }
{
    match event {
        Event::Took {
            stamp: _,
            place,
            frame,
        } => put_told(alloc, text, cast, stamp, *place, frame.frame()),
        Event::Cry { bytes } => put_cry(alloc, text, cast, stamp, bytes.as_slice()),
        _ => Ok(()),
    }
}

/// The word of a frame that was taken where no body stands.
fn put_told(
    alloc: Global,
    text: &mut String,
    cast: Cast,
    stamp: u64,
    place: u32,
    frame: &Frame,
) -> Result<(), Want>
    requires { actors_of cast ≤ 26 }
    ensures { OnOk result (string_bytes text.new ≡ string_bytes text.old ++ told_text cast stamp place frame.now) }
{
    if place == u32::MAX {
        put_line(alloc, text, cast, stamp, " took ", frame)?;
    }
    Ok(())
}

/// The word that a cry's bytes spell, if they spell one.
fn put_cry(
    alloc: Global,
    text: &mut String,
    cast: Cast,
    stamp: u64,
    bytes: &[u8],
) -> Result<(), Want>
    requires { actors_of cast ≤ 26 }
    ensures { OnOk result (string_bytes text.new ≡ string_bytes text.old
        ++ flat_map (λ frame. word_line cast stamp (codes " said ") frame.signer frame.body) (cried (Cry bytes.now))) }
{
    let found = cried(alloc, bytes)?;
    match found {
        Some(frame) => put_line(alloc, text, cast, stamp, " said ", &frame),
        None => Ok(()),
    }
}

fn put_line(
    alloc: Global,
    text: &mut String,
    cast: Cast,
    stamp: u64,
    verb: &str,
    frame: &Frame,
) -> Result<(), Want>
    requires { actors_of cast ≤ 26 }
    ensures { OnOk result (string_bytes text.new ≡ string_bytes text.old ++ word_line cast stamp verb.now frame.now.signer frame.now.body) }
{
    put_word_line(alloc, text, cast, stamp, verb, frame.signer, &frame.body)
}

fn put_said(
    alloc: Global,
    text: &mut String,
    cast: Cast,
    stamp: u64,
    actor: u32,
    said: &[Body],
) -> Result<(), Want>
    requires { actors_of cast ≤ 26 }
    ensures { OnOk result (string_bytes text.new ≡ string_bytes text.old ++ flat_map (word_line cast stamp (codes " said ") actor) said.now) }
{
    for body in said {
        put_word_line(alloc, text, cast, stamp, " said ", actor, body)?;
    }
    Ok(())
}

#[tactic(auto, unfolding(crate::specs::Details::word_line))]
fn put_word_line(
    alloc: Global,
    text: &mut String,
    cast: Cast,
    stamp: u64,
    verb: &str,
    signer: u32,
    body: &Body,
) -> Result<(), Want>
    requires { actors_of cast ≤ 26 }
    ensures { OnOk result (string_bytes text.new ≡ string_bytes text.old ++ word_line cast stamp verb.now signer body.now) }
{
    write!(text, "{stamp}")?;
    text.push_str(verb)?;
    put_word(alloc, text, cast, signer, body)?;
    text.push_str("\n")?;
    Ok(())
}
