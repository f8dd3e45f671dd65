//! The alarms of a point in its plot: their limits, and where each was raised and cleared.
ghost use Rattle.std.specs.Prelude.{◌≡◌, ◌++◌, OnOk, string_bytes};
ghost use Rattle.std.specs.List.{flat_map};
ghost use Rattle.alarm_rules.specs.Alarm.{is_raised};
ghost use Rattle.axis_pictures.specs.Plots.{alarm_after, alarm_shown, alarm_text, kind_text, limit_at, limit_shown, limit_text, limit_words, turn_text};

use crate::frame::{FOOT, Frame, LEFT, TOP, height_of};
use crate::plot::heard;
use alarm_rules::alarm::AlarmState;
use alarm_rules::{AlarmKind, AlarmRule};
use message_types::Update;
use plain_lists::Want;
use point_table::Point;
use svg_shapes::{WRONG, put_dashes, put_line};

/// The limits of the point's alarms.
pub(crate) fn put_limits(
    text: &mut String,
    frame: Frame,
    number: u32,
    point: &Point,
    alarms: &[AlarmRule],
) -> Result<(), Want>
    ensures { OnOk result (string_bytes text.new ≡ string_bytes text.old ++ flat_map (limit_shown frame number point.now) alarms.now) }
{
    for alarm in alarms {
        put_limit_shown(text, frame, number, point, alarm)?;
    }
    Ok(())
}

fn put_limit_shown(
    text: &mut String,
    frame: Frame,
    number: u32,
    point: &Point,
    alarm: &AlarmRule,
) -> Result<(), Want>
    ensures { OnOk result (string_bytes text.new ≡ string_bytes text.old ++ limit_shown frame number point.now alarm.now) }
{
    if alarm.point == number {
        put_limit(text, frame, point, alarm)?;
    }
    Ok(())
}

/// An alarm's limit with its words above it.
#[tactic(auto, unfolding(crate::specs::Plots::limit_text))]
fn put_limit(text: &mut String, frame: Frame, point: &Point, alarm: &AlarmRule) -> Result<(), Want>
    ensures { OnOk result (string_bytes text.new ≡ string_bytes text.old ++ limit_text frame point.now alarm.now) }
{
    let y = height_of(point, alarm.limit);
    put_dashes(text, (LEFT, y), (frame.right(), y), WRONG)?;
    put_limit_words(text, y.saturating_sub(4), alarm)
}

#[tactic(auto, unfolding(crate::specs::Plots::limit_words))]
fn put_limit_words(text: &mut String, y: u64, alarm: &AlarmRule) -> Result<(), Want>
    ensures { OnOk result (string_bytes text.new ≡ string_bytes text.old ++ limit_words y alarm.now) }
{
    let limit = alarm.limit;
    put_limit_at(text, y)?;
    text.push_str(alarm.name.as_str())?;
    text.push_str(": ")?;
    text.push_str(kind_words(alarm.kind))?;
    write!(text, "{limit}</text>\n")?;
    Ok(())
}

#[tactic(auto, unfolding(crate::specs::Plots::limit_at))]
fn put_limit_at(text: &mut String, y: u64) -> Result<(), Want>
    ensures { OnOk result (string_bytes text.new ≡ string_bytes text.old ++ limit_at y) }
{
    write!(text, "<text x=\"76\" y=\"{y}\" fill=\"#c00020\">")?;
    Ok(())
}

fn kind_words(kind: AlarmKind) -> &'static str
    ensures { result.now ≡ kind_text kind }
{
    match kind {
        AlarmKind::High => "at least ",
        AlarmKind::Low => "at most ",
    }
}

/// Where the point's alarms were raised and cleared.
pub(crate) fn put_turns(
    text: &mut String,
    frame: Frame,
    number: u32,
    point: &Point,
    alarms: &[AlarmRule],
    executed: &[Update],
) -> Result<(), Want>
    ensures { OnOk result (string_bytes text.new ≡ string_bytes text.old ++ flat_map (alarm_shown frame number point.now executed.now) alarms.now) }
{
    for alarm in alarms {
        put_alarm_shown(text, frame, number, point, alarm, executed)?;
    }
    Ok(())
}

fn put_alarm_shown(
    text: &mut String,
    frame: Frame,
    number: u32,
    point: &Point,
    alarm: &AlarmRule,
    executed: &[Update],
) -> Result<(), Want>
    ensures { OnOk result (string_bytes text.new ≡ string_bytes text.old ++ alarm_shown frame number point.now executed.now alarm.now) }
{
    if alarm.point == number {
        put_alarm(text, frame, number, point, alarm, executed)?;
    }
    Ok(())
}

/// An alarm goes by the readings that count. Acknowledging it neither raises nor clears it.
fn put_alarm(
    text: &mut String,
    frame: Frame,
    number: u32,
    point: &Point,
    alarm: &AlarmRule,
    executed: &[Update],
) -> Result<(), Want>
    ensures { OnOk result (string_bytes text.new ≡ string_bytes text.old ++ alarm_text frame number point.now executed.now alarm.now) }
{
    let mut state = AlarmState::Quiet;
    for (place, update) in executed.iter().enumerate() {
        let next = state_after(alarm, state, heard(number, point, update));
        put_turn(text, frame, place as u64, state, next)?;
        state = next;
    }
    Ok(())
}

fn state_after(alarm: &AlarmRule, state: AlarmState, heard: Option<i64>) -> AlarmState
    ensures { result ≡ alarm_after alarm.now state heard }
{
    match heard {
        Some(value) => alarm.next_state(value, state),
        None => state,
    }
}

/// A line where the alarm is raised, and another where it is cleared.
fn put_turn(
    text: &mut String,
    frame: Frame,
    place: u64,
    before: AlarmState,
    after: AlarmState,
) -> Result<(), Want>
    ensures { OnOk result (string_bytes text.new ≡ string_bytes text.old ++ turn_text frame place (is_raised before) (is_raised after)) }
{
    let colour = match (before.is_raised(), after.is_raised()) {
        (false, true) => WRONG,
        (true, false) => "#2e8b57",
        _ => return Ok(()),
    };
    let x = frame.along(place);
    put_line(text, (x, TOP), (x, FOOT), colour)
}
