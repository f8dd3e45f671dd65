ghost use Rattle.std.specs.Prelude.{◌≡◌, ◌++◌, IfOk, OnOk};
ghost use Rattle.wire_parts.specs.Fields.{u8_bytes, u32_bytes, i64_bytes};
ghost use Rattle.message_types.specs.Texts.{op_text, frame_text};
ghost use Rattle.message_forms.specs.Widths.{FitsOp};
ghost use Rattle.history_rules.specs.Events.{Took};
ghost use Rattle.world_entries.specs.Entries.{event_of, entry_of};
ghost use Rattle.entry_texts.specs.Texts.{area_number, counted_text, taken_text, change_text, event_text, kept_text};
ghost use Rattle.entry_texts.specs.Fits.{HasCount, IsShort, FitsEvent, FitsEntry};

use crate::ranges::Ranged;
use checked_frames::Checked;
use message_forms::write_frame;
use message_types::Op;
use plain_lists::Want;
use point_table::Area;
use std::alloc::Global;
use wire_parts::{put_bytes, put_i64, put_u8, put_u16, put_u32, put_u64};
use world_entries::{Entry, Event};

fn put_counted(out: &mut Vec<u8>, bytes: &[u8]) -> Result<(), Want>
    requires { IsShort bytes.now }
    ensures { OnOk result (out.new.items ≡ out.old.items ++ counted_text bytes.now) }
{
    put_u32(out, bytes.len() as u32)?;
    put_bytes(out, bytes)
}

// A frame whose numbers were looked at has fewer than 2^30 bytes.
fn put_taken(
    alloc: Global,
    out: &mut Vec<u8>,
    stamp: u64,
    place: u32,
    checked: &Checked,
) -> Result<(), Want>
    ensures text { OnOk result (out.new.items ≡ out.old.items ++ (u8_bytes 1 ++ taken_text stamp place (frame_text checked.now))) }
    ensures fits { OnOk result (FitsEvent (Took stamp place checked.now)) }
{
    let frame = checked.frame();
    let text = write_frame(alloc, frame)?;
    frame.look();
    put_u8(out, 1)?;
    put_u64(out, stamp)?;
    put_u32(out, place)?;
    put_u32(out, text.len() as u32)?;
    put_bytes(out, &text)
}

fn put_point(out: &mut Vec<u8>, kind: u8, point: u32, value: i64) -> Result<(), Want>
    ensures { OnOk result (out.new.items ≡ out.old.items ++ (u8_bytes kind ++ u32_bytes point ++ i64_bytes value)) }
{
    put_u8(out, kind)?;
    put_u32(out, point)?;
    put_i64(out, value)
}

fn put_op(out: &mut Vec<u8>, op: Op) -> Result<(), Want>
    ensures text { OnOk result (out.new.items ≡ out.old.items ++ op_text op) }
    ensures fits { FitsOp op }
{
    op.look();
    match op {
        Op::Reading { point, value } => put_point(out, 1, point, value),
        Op::Set { point, value } => put_point(out, 2, point, value),
        Op::Ack { alarm } => {
            put_u8(out, 3)?;
            put_u32(out, alarm)
        }
    }
}

fn number_of(area: Area) -> u8
    ensures { result ≡ area_number area }
{
    match area {
        Area::Coil => 1,
        Area::Discrete => 2,
        Area::Holding => 3,
        Area::Input => 4,
    }
}

fn put_change(out: &mut Vec<u8>, area: Area, place: u16, value: u16) -> Result<(), Want>
    ensures { OnOk result (out.new.items ≡ out.old.items ++ change_text area place value) }
{
    put_u8(out, number_of(area))?;
    put_u16(out, place)?;
    put_u16(out, value)
}

fn put_event(alloc: Global, out: &mut Vec<u8>, event: &Event) -> Result<(), Want>
    requires { HasCount (event_of event.now) }
    ensures text { OnOk result (out.new.items ≡ out.old.items ++ event_text (event_of event.now)) }
    ensures fits { OnOk result (FitsEvent (event_of event.now)) }
{
    match event {
        Event::Took {
            stamp,
            place,
            frame,
        } => put_taken(alloc, out, *stamp, *place, frame),
        Event::Tick => put_u8(out, 2),
        Event::Command { op } => {
            put_u8(out, 3)?;
            put_op(out, *op)
        }
        Event::Field { area, place, value } => {
            put_u8(out, 4)?;
            put_change(out, *area, *place, *value)
        }
        Event::Poll => put_u8(out, 5),
        Event::Cry { bytes } => {
            put_u8(out, 6)?;
            put_counted(out, bytes.as_slice())
        }
        Event::Skip => put_u8(out, 7),
        Event::Restart => put_u8(out, 8),
    }
}

/// The bytes that are kept of an entry: its stamp and its event.
pub fn spell_entry(alloc: Global, entry: &Entry) -> Result<Vec<u8>, Want>
    requires { HasCount (event_of entry.now.event) }
    ensures text { IfOk result (λ text. text.items ≡ kept_text (entry_of entry.now)) }
    // So what is written is read again, where a frame in it stands.
    ensures fits { OnOk result (FitsEntry entry.now.stamp (event_of entry.now.event)) }
{
    let mut text = Vec::new(alloc);
    put_u64(&mut text, entry.stamp)?;
    put_event(alloc, &mut text, &entry.event)?;
    Ok(text)
}
