//! The lines of a history's entries.
ghost use Rattle.std.specs.Prelude.{◌≡◌, ◌≤◌, ◌++◌, OnOk, string_bytes, codes, decimal};
ghost use Rattle.std.specs.List.{flat_map};
ghost use Rattle.scenario_file.specs.Actors.{actors_of};
ghost use Rattle.world_entries.specs.Entries.{event_of, entry_of};
ghost use Rattle.run_lines.specs.Names.{area_name};
ghost use Rattle.run_lines.specs.Texts.{hex_text, op_text, took_text, event_text, kind_text, said_text, entry_text};

use crate::actors::{put_actor, put_hex, put_op};
use crate::names::{area_name, kind_of};
use checked_frames::Checked;
use message_forms::write_frame;
use message_types::{Body, Op};
use plain_lists::Want;
use point_table::Area;
use scenario_file::Cast;
use std::alloc::Global;
use world_entries::{Entry, Event};

/// Appends the line of an entry. A frame that it takes is named by where the event says that it was said, if it was said
/// there, and else by its bytes.
#[tactic(auto, unfolding(crate::specs::Texts::entry_text))]
pub fn put_entry(
    alloc: Global,
    text: &mut String,
    cast: Cast,
    is_said: bool,
    entry: &Entry,
) -> Result<(), Want>
    requires { actors_of cast ≤ 26 }
    ensures { OnOk result (string_bytes text.new ≡ string_bytes text.old ++ entry_text cast is_said (entry_of entry.now)) }
{
    let stamp = entry.stamp;
    write!(text, "{stamp} ")?;
    put_actor(text, cast, entry.actor)?;
    text.push_str(" ")?;
    put_event(alloc, text, is_said, &entry.event)?;
    put_said(text, entry.said.as_slice())?;
    text.push_str("\n")?;
    Ok(())
}

#[tactic(auto, unfolding(crate::specs::Texts::event_text))]
fn put_event(alloc: Global, text: &mut String, is_said: bool, event: &Event) -> Result<(), Want>
    ensures { OnOk result (string_bytes text.new ≡ string_bytes text.old ++ event_text is_said (event_of event.now)) }
{
    match event {
        Event::Took {
            stamp,
            place,
            frame,
        } => put_took(alloc, text, is_said, *stamp, *place, frame)?,
        Event::Tick => text.push_str("tick")?,
        Event::Command { op } => put_command(text, op)?,
        Event::Field { area, place, value } => put_change(text, *area, *place, *value)?,
        Event::Poll => text.push_str("poll")?,
        Event::Cry { bytes } => put_cry(alloc, text, bytes.as_slice())?,
        Event::Skip => text.push_str("skip")?,
        Event::Restart => text.push_str("restart")?,
    }
    Ok(())
}

fn put_took(
    alloc: Global,
    text: &mut String,
    is_said: bool,
    stamp: u64,
    place: u32,
    frame: &Checked,
) -> Result<(), Want>
    ensures { OnOk result (string_bytes text.new ≡ string_bytes text.old ++ took_text is_said stamp place frame.now) }
{
    if is_said {
        write!(text, "took {stamp}.{place}")?;
        return Ok(());
    }
    text.push_str("took frame ")?;
    let bytes = write_frame(alloc, frame.frame())?;
    put_hex(alloc, text, &bytes)
}

fn put_command(text: &mut String, op: &Op) -> Result<(), Want>
    ensures { OnOk result (string_bytes text.new ≡ string_bytes text.old ++ (codes "command " ++ op_text op.now)) }
{
    text.push_str("command ")?;
    put_op(text, op)
}

fn put_change(text: &mut String, area: Area, place: u16, value: u16) -> Result<(), Want>
    ensures { OnOk result (string_bytes text.new ≡ string_bytes text.old ++ (codes "field " ++ area_name area ++ codes " " ++ decimal place ++ codes " " ++ decimal value)) }
{
    text.push_str("field ")?;
    text.push_str(area_name(area))?;
    write!(text, " {place} {value}")?;
    Ok(())
}

fn put_cry(alloc: Global, text: &mut String, bytes: &[u8]) -> Result<(), Want>
    ensures { OnOk result (string_bytes text.new ≡ string_bytes text.old ++ (codes "cry " ++ hex_text bytes.now)) }
{
    text.push_str("cry ")?;
    put_hex(alloc, text, bytes)
}

fn put_said(text: &mut String, said: &[Body]) -> Result<(), Want>
    ensures { OnOk result (string_bytes text.new ≡ string_bytes text.old ++ said_text said.now) }
{
    if said.is_empty() {
        return Ok(());
    }
    text.push_str(" says")?;
    put_kinds(text, said)
}

fn put_kinds(text: &mut String, said: &[Body]) -> Result<(), Want>
    ensures { OnOk result (string_bytes text.new ≡ string_bytes text.old ++ flat_map kind_text said.now) }
{
    for body in said {
        text.push_str(" ")?;
        text.push_str(kind_of(body).name())?;
    }
    Ok(())
}
