ghost use Rattle.entry_texts.specs.Reads.{ReadsPoint, ReadsAlarm, ReadsOp, ReadsArea, ReadsCounted, ReadsTaken, ReadsChange};

use message_types::Op;
use point_table::Area;
use wire_parts::Reader;

/// The text of a frame, with the stamp and the place that it was said at.
#[derive(Drop)]
pub struct TakenFrame<'a> {
    pub stamp: u64,
    pub place: u32,
    pub text: &'a [u8],
}

/// A change in a proxy's field.
#[derive(Drop)]
pub struct Change {
    pub area: Area,
    pub place: u16,
    pub value: u16,
}

/// The bytes behind their length, to the end. It lends them, so a length alone takes no memory.
pub fn read_counted<'a>(reader: &mut Reader<'a>) -> Option<&'a [u8]>
    ensures { ReadsCounted reader.old.rest result }
{
    let Ok(count) = reader.u32() else {
        return None;
    };
    let Ok(piece) = reader.bytes(u64::from(count)) else {
        return None;
    };
    let Ok(()) = reader.end() else {
        return None;
    };
    Some(piece)
}

pub fn read_taken<'a>(reader: &mut Reader<'a>) -> Option<TakenFrame<'a>>
    ensures { ReadsTaken reader.old.rest result }
{
    let Ok(stamp) = reader.u64() else {
        return None;
    };
    let Ok(place) = reader.u32() else {
        return None;
    };
    let Some(text) = read_counted(reader) else {
        return None;
    };
    Some(TakenFrame { stamp, place, text })
}

fn read_area(number: u8) -> Option<Area>
    ensures { ReadsArea number result }
{
    match number {
        1 => Some(Area::Coil),
        2 => Some(Area::Discrete),
        3 => Some(Area::Holding),
        4 => Some(Area::Input),
        _ => None,
    }
}

pub fn read_change(reader: &mut Reader<'_>) -> Option<Change>
    ensures { ReadsChange reader.old.rest result }
{
    let Ok(number) = reader.u8() else {
        return None;
    };
    let Ok(place) = reader.u16() else {
        return None;
    };
    let Ok(value) = reader.u16() else {
        return None;
    };
    let Ok(()) = reader.end() else {
        return None;
    };
    let Some(area) = read_area(number) else {
        return None;
    };
    Some(Change { area, place, value })
}

fn read_point(reader: &mut Reader<'_>) -> Option<(u32, i64)>
    ensures { ReadsPoint reader.old.rest result }
{
    let Ok(point) = reader.u32() else {
        return None;
    };
    let Ok(value) = reader.i64() else {
        return None;
    };
    let Ok(()) = reader.end() else {
        return None;
    };
    Some((point, value))
}

fn read_alarm(reader: &mut Reader<'_>) -> Option<u32>
    ensures { ReadsAlarm reader.old.rest result }
{
    let Ok(alarm) = reader.u32() else {
        return None;
    };
    let Ok(()) = reader.end() else {
        return None;
    };
    Some(alarm)
}

pub fn read_op(reader: &mut Reader<'_>) -> Option<Op>
    ensures { ReadsOp reader.old.rest result }
{
    let Ok(kind) = reader.u8() else {
        return None;
    };
    match kind {
        1 => {
            let (point, value) = read_point(reader)?;
            Some(Op::Reading { point, value })
        }
        2 => {
            let (point, value) = read_point(reader)?;
            Some(Op::Set { point, value })
        }
        3 => {
            let alarm = read_alarm(reader)?;
            Some(Op::Ack { alarm })
        }
        _ => None,
    }
}
