//! What an event's words in a printed run say.
ghost use Rattle.std.specs.Prelude.{ℕ, ℤ};
ghost use Rattle.message_types.specs.declared.updates.Op.TheVariants as op;
ghost use Rattle.script_grammar.specs.Faults.{Answers, or_bad, said};
ghost use Rattle.script_grammar.specs.Lines.{texts};
ghost use Rattle.run_lines.specs.declared.event_line.EventLine.TheVariants as line;
ghost use Rattle.run_lines.specs.Names.{area_named};
ghost use Rattle.run_lines.specs.Reading.{place_in, frame_in, took_in, value_in, alarm_in, op_in, change_in, cry_in, alone, event_of, event_in};

use crate::names::area_named;
use message_types::Op;
use plain_lists::Bytes;
use point_table::Area;
use script_grammar::{LineRefusal, both, bytes, narrow, parts, short, signed, wide};
use std::alloc::Global;

/// What the line of an entry says of its event.
#[derive(Drop)]
pub enum EventLine {
    /// The frame that was said at this stamp as body number `place`, from 0, is taken.
    Said { stamp: u64, place: u32 },
    /// The frame that these bytes spell is taken.
    Frame { bytes: Bytes },
    Tick,
    Command { op: Op },
    Field { area: Area, place: u16, value: u16 },
    Poll,
    Cry { bytes: Bytes },
    Skip,
    Restart,
}

fn place(parts: &[&str]) -> Result<EventLine, LineRefusal>
    ensures { Answers result (place_in (texts parts.now)) }
{
    match parts {
        [stamp, place] => {
            let (stamp, place) = both(wide(stamp), narrow(place))?;
            Ok(EventLine::Said { stamp, place })
        }
        _ => Err(LineRefusal::BadLine),
    }
}

fn frame(alloc: Global, what: &str, text: &str) -> Result<EventLine, LineRefusal>
    ensures { Answers result (frame_in what.now text.now) }
{
    if what != "frame" {
        return Err(LineRefusal::BadLine);
    }
    Ok(EventLine::Frame {
        bytes: bytes(alloc, text)?,
    })
}

fn took(alloc: Global, fields: &[&str]) -> Result<EventLine, LineRefusal>
    ensures { Answers result (took_in (texts fields.now)) }
{
    match fields {
        [at] => {
            let numbers = parts(alloc, at, '.')?;
            place(numbers.as_slice())
        }
        [what, text] => frame(alloc, what, text),
        _ => Err(LineRefusal::BadLine),
    }
}

/// A point and its value.
fn value(fields: &[&str]) -> Result<(u32, i64), LineRefusal>
    ensures { Answers result (value_in (texts fields.now)) }
{
    match fields {
        [point, value] => both(narrow(point), signed(value)),
        _ => Err(LineRefusal::BadLine),
    }
}

fn reading(fields: &[&str]) -> Result<Op, LineRefusal>
    ensures { Answers result (said (λ (p : ℕ × ℤ). op.Reading p.0 p.1) (value_in (texts fields.now))) }
{
    let (point, value) = value(fields)?;
    Ok(Op::Reading { point, value })
}

fn set(fields: &[&str]) -> Result<Op, LineRefusal>
    ensures { Answers result (said (λ (p : ℕ × ℤ). op.Set p.0 p.1) (value_in (texts fields.now))) }
{
    let (point, value) = value(fields)?;
    Ok(Op::Set { point, value })
}

fn ack(fields: &[&str]) -> Result<Op, LineRefusal>
    ensures { Answers result (said op.Ack (alarm_in (texts fields.now))) }
{
    match fields {
        [alarm] => Ok(Op::Ack {
            alarm: narrow(alarm)?,
        }),
        _ => Err(LineRefusal::BadLine),
    }
}

fn op(fields: &[&str]) -> Result<Op, LineRefusal>
    ensures { Answers result (op_in (texts fields.now)) }
{
    match fields {
        [] => Err(LineRefusal::BadLine),
        [what, rest @ ..] => {
            if *what == "reading" {
                reading(rest)
            } else if *what == "set" {
                set(rest)
            } else if *what == "ack" {
                ack(rest)
            } else {
                Err(LineRefusal::BadLine)
            }
        }
    }
}

fn command(fields: &[&str]) -> Result<EventLine, LineRefusal>
    ensures { Answers result (said line.Command (op_in (texts fields.now))) }
{
    Ok(EventLine::Command { op: op(fields)? })
}

fn area(name: &str) -> Result<Area, LineRefusal>
    ensures { Answers result (or_bad (area_named name.now)) }
{
    match area_named(name) {
        Some(area) => Ok(area),
        None => Err(LineRefusal::BadLine),
    }
}

/// A place of an area, and what it holds.
fn change(fields: &[&str]) -> Result<EventLine, LineRefusal>
    ensures { Answers result (change_in (texts fields.now)) }
{
    match fields {
        [name, place, value] => {
            let numbers = both(short(place), short(value));
            let (area, (place, value)) = both(area(name), numbers)?;
            Ok(EventLine::Field { area, place, value })
        }
        _ => Err(LineRefusal::BadLine),
    }
}

fn cry(alloc: Global, fields: &[&str]) -> Result<EventLine, LineRefusal>
    ensures { Answers result (cry_in (texts fields.now)) }
{
    match fields {
        [text] => Ok(EventLine::Cry {
            bytes: bytes(alloc, text)?,
        }),
        _ => Err(LineRefusal::BadLine),
    }
}

/// A word that nothing follows.
fn alone(event: EventLine, fields: &[&str]) -> Result<EventLine, LineRefusal>
    ensures { Answers result (alone event (texts fields.now)) }
{
    match fields {
        [] => Ok(event),
        _ => Err(LineRefusal::BadLine),
    }
}

fn named(alloc: Global, what: &str, fields: &[&str]) -> Result<EventLine, LineRefusal>
    ensures { Answers result (event_of what.now (texts fields.now)) }
{
    match what {
        "took" => took(alloc, fields),
        "tick" => alone(EventLine::Tick, fields),
        "command" => command(fields),
        "field" => change(fields),
        "poll" => alone(EventLine::Poll, fields),
        "cry" => cry(alloc, fields),
        "skip" => alone(EventLine::Skip, fields),
        "restart" => alone(EventLine::Restart, fields),
        _ => Err(LineRefusal::BadLine),
    }
}

/// What an event's words say.
#[tactic(auto, unfolding(crate::specs::Reading::event_in))]
pub fn read_event(alloc: Global, words: &[&str]) -> Result<EventLine, LineRefusal>
    ensures { Answers result (event_in (texts words.now)) }
{
    match words {
        [] => Err(LineRefusal::BadLine),
        [what, fields @ ..] => named(alloc, what, fields),
    }
}
