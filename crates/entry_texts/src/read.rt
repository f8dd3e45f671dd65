ghost use Rattle.std.specs.Prelude.{◌≡◌, ◌≢◌, ◌∷◌, ℕ, IfOk, IfSome};
ghost use Rattle.checked_frames.specs.Standing.{Ring};
ghost use Rattle.history_rules.specs.Events.{Event as HistoryEvent};
ghost use Rattle.world_entries.specs.Entries.{event_of};
ghost use Rattle.entry_texts.specs.Texts.{entry_text};
ghost use Rattle.entry_texts.specs.Fits.{FitsEntry, TakenStands};
ghost use Rattle.entry_texts.specs.KeptEntries.{IsKeptEvent, IsKept, SpellsEvent};
ghost use Rattle.entry_texts.specs.Reads.{ReadsSpelled, ReadsFrame, ReadsEvent, ReadsEntry, IsBare, IsEntry};

use crate::fields::{read_change, read_counted, read_op, read_taken};
use checked_frames::{CheckRefusal, Checked, KeyRing, check};
use message_forms::{FormRefusal, read_frame};
use message_types::Frame;
use plain_lists::{Bytes, Want};
use std::alloc::Global;
use wire_parts::Reader;
use world_entries::Event;

/// The kind of an event that takes a frame.
const TOOK: u8 = 1;

// The frame that the text spells, whether or not it stands.
fn read_spelled(alloc: Global, text: &[u8]) -> Result<Option<Frame>, Want>
    ensures { IfOk result (ReadsSpelled text.now) }
{
    match read_frame(alloc, text) {
        Ok(frame) => Ok(Some(frame)),
        Err(FormRefusal::Want) => Err(Want),
        Err(_) => Ok(None),
    }
}

// A frame that is refused is none; only want of memory is an error.
fn refused(refusal: CheckRefusal) -> Result<Option<Checked>, Want>
    ensures { IfOk result (λ read. (read ≡ None) × (refusal ≡ CheckRefusal.Want → ⊥)) }
{
    match refusal {
        CheckRefusal::Want => Err(Want),
        _ => Ok(None),
    }
}

// The frame that the text spells, if it stands.
fn read_standing(alloc: Global, ring: &KeyRing, text: &[u8]) -> Result<Option<Checked>, Want>
    ensures { IfOk result (ReadsFrame ring.now text.now) }
{
    let read = read_spelled(alloc, text)?;
    let Some(frame) = read else {
        return Ok(None);
    };
    match check(alloc, ring, frame) {
        Ok(checked) => Ok(Some(checked)),
        Err(refusal) => refused(refusal),
    }
}

fn read_took(alloc: Global, ring: &KeyRing, reader: &mut Reader<'_>) -> Result<Option<Event>, Want>
    ensures { IfOk result (ReadsEvent ring.now (1 ∷ reader.old.rest)) }
{
    let Some(taken) = read_taken(reader) else {
        return Ok(None);
    };
    let read = read_standing(alloc, ring, taken.text)?;
    let Some(frame) = read else {
        return Ok(None);
    };
    Ok(Some(Event::Took {
        stamp: taken.stamp,
        place: taken.place,
        frame,
    }))
}

fn read_command(reader: &mut Reader<'_>) -> Option<Event>
    ensures { (ring : Ring) → ReadsEvent ring (3 ∷ reader.old.rest) result }
{
    let op = read_op(reader)?;
    Some(Event::Command { op })
}

fn read_field(reader: &mut Reader<'_>) -> Option<Event>
    ensures { (ring : Ring) → ReadsEvent ring (4 ∷ reader.old.rest) result }
{
    let change = read_change(reader)?;
    Some(Event::Field {
        area: change.area,
        place: change.place,
        value: change.value,
    })
}

fn read_cry(alloc: Global, reader: &mut Reader<'_>) -> Result<Option<Event>, Want>
    ensures { IfOk result (λ read. (ring : Ring) → ReadsEvent ring (6 ∷ reader.old.rest) read) }
{
    let Some(bytes) = read_counted(reader) else {
        return Ok(None);
    };
    Ok(Some(Event::Cry {
        bytes: Bytes::from_slice(alloc, bytes)?,
    }))
}

// An event without fields.
fn read_bare(reader: &Reader<'_>, event: Event) -> Option<Event>
    ensures { IsBare reader.now.rest event result }
{
    let Ok(()) = reader.end() else {
        return None;
    };
    Some(event)
}

// An event of any other kind than that of a frame taken.
fn read_other(alloc: Global, kind: u8, reader: &mut Reader<'_>) -> Result<Option<Event>, Want>
    requires { kind ≢ 1 }
    ensures { IfOk result (λ read. (ring : Ring) → ReadsEvent ring (kind ∷ reader.old.rest) read) }
{
    match kind {
        2 => Ok(read_bare(reader, Event::Tick)),
        3 => Ok(read_command(reader)),
        4 => Ok(read_field(reader)),
        5 => Ok(read_bare(reader, Event::Poll)),
        6 => read_cry(alloc, reader),
        7 => Ok(read_bare(reader, Event::Skip)),
        8 => Ok(read_bare(reader, Event::Restart)),
        _ => Ok(None),
    }
}

fn read_event(alloc: Global, ring: &KeyRing, reader: &mut Reader<'_>) -> Result<Option<Event>, Want>
    ensures { IfOk result (ReadsEvent ring.now reader.old.rest) }
{
    let Ok(kind) = reader.u8() else {
        return Ok(None);
    };
    if kind == TOOK {
        return read_took(alloc, ring, reader);
    }
    read_other(alloc, kind, reader)
}

fn read_whole(alloc: Global, ring: &KeyRing, bytes: &[u8]) -> Result<Option<(u64, Event)>, Want>
    ensures { IfOk result (ReadsEntry ring.now bytes.now) }
{
    let mut reader = Reader::over(bytes);
    let Ok(stamp) = reader.u64() else {
        return Ok(None);
    };
    let read = read_event(alloc, ring, &mut reader)?;
    let Some(event) = read else {
        return Ok(None);
    };
    Ok(Some((stamp, event)))
}

/// The stamp and the event that the bytes spell, all of them; a frame that the event takes is checked. None where they
/// are no entry's, or the frame doesn't stand.
pub fn read_entry(alloc: Global, ring: &KeyRing, bytes: &[u8]) -> Result<Option<(u64, Event)>, Want>
    // What is read is spelled so, and a frame in it stands.
    ensures found { IfOk result (λ read. IfSome read (λ e. bytes.now ≡ entry_text e.0 (event_of e.1))) }
    ensures fits { IfOk result (λ read. IfSome read (λ e. FitsEntry e.0 (event_of e.1))) }
    ensures stands { IfOk result (λ read. IfSome read (λ e. TakenStands ring.now (event_of e.1))) }
    // What is spelled so is read if a frame in it stands, unless memory runs out.
    ensures only { (stamp : ℕ) (event : HistoryEvent) → FitsEntry stamp event → TakenStands ring.now event
        → bytes.now ≡ entry_text stamp event → IfOk result (IsEntry stamp event) }
{
    read_whole(alloc, ring, bytes)
}

// A frame taken, which stands.
fn read_kept_took(alloc: Global, reader: &mut Reader<'_>) -> Result<Event, Want>
    requires { IsKeptEvent (1 ∷ reader.old.rest) }
    ensures { IfOk result (λ event. SpellsEvent (1 ∷ reader.old.rest) (event_of event)) }
{
    let Some(taken) = read_taken(reader) else {
        unreachable!()
    };
    let read = read_spelled(alloc, taken.text)?;
    let Some(frame) = read else { unreachable!() };
    Ok(Event::Took {
        stamp: taken.stamp,
        place: taken.place,
        frame: Checked::from_standing(alloc, frame)?,
    })
}

fn read_kept_event(alloc: Global, reader: &mut Reader<'_>) -> Result<Event, Want>
    requires { IsKeptEvent reader.old.rest }
    ensures { IfOk result (λ event. SpellsEvent reader.old.rest (event_of event)) }
{
    let Ok(kind) = reader.u8() else {
        unreachable!()
    };
    if kind == TOOK {
        return read_kept_took(alloc, reader);
    }
    let read = read_other(alloc, kind, reader)?;
    let Some(event) = read else { unreachable!() };
    Ok(event)
}

/// The stamp and the event that the bytes spell, which are known to be what was kept of an entry. A frame that the event
/// takes is known to stand, so none of its signatures is tried again.
pub fn read_kept(alloc: Global, bytes: &[u8]) -> Result<(u64, Event), Want>
    requires { IsKept bytes.now }
    ensures found { IfOk result (λ e. bytes.now ≡ entry_text e.0 (event_of e.1)) }
    ensures fits { IfOk result (λ e. FitsEntry e.0 (event_of e.1)) }
{
    let mut reader = Reader::over(bytes);
    let Ok(stamp) = reader.u64() else {
        unreachable!()
    };
    let event = read_kept_event(alloc, &mut reader)?;
    Ok((stamp, event))
}
