//! One point over the executions of a master: its readings and what was set, with its alarms.
ghost use Rattle.std.specs.Prelude.{◌≡◌, ◌-ℤ◌, ◌++◌, None, pos, IfOk, OnOk, string_bytes};
ghost use Rattle.std.specs.Int.{w64, saturate_signed};
ghost use Rattle.std.specs.List.{flat_map};
ghost use Rattle.axis_pictures.specs.Plots.{below_high, box_of, dot_at, dot_of, heard, joint_text, legend_words, level_text, levels_text, plot_text, quarter_text, quarters_text, reading_text, setting_text, sign_text, signs_text, title_end, title_head, title_text, value_at, value_head};

use crate::alarms::{put_limits, put_turns};
use crate::frame::{FOOT, Frame, LEFT, TOP, distance, height_of};
use crate::legend::PLOT_LEGEND;
use alarm_rules::AlarmRule;
use message_types::{Op, Update};
use plain_lists::Want;
use point_table::Point;
use std::alloc::Global;
use svg_shapes::{put_box, put_closing, put_dot, put_head, put_line};

/// The height of a plot, and of a chart.
pub(crate) const HEIGHT: u64 = 370;

/// A place in the picture.
pub(crate) type Place = (u64, u64);

/// The point with its number over the updates that a master executed.
#[tactic(auto, unfolding(crate::specs::Plots::plot_text))]
pub fn plot_of(
    alloc: Global,
    frame: Frame,
    number: u32,
    point: &Point,
    alarms: &[AlarmRule],
    executed: &[Update],
) -> Result<String, Want>
    ensures { IfOk result (λ text. string_bytes text ≡ plot_text frame number point.now alarms.now executed.now) }
{
    let mut text = String::new(alloc);
    put_head(&mut text, frame.width, HEIGHT)?;
    put_title(&mut text, number, point)?;
    put_levels(&mut text, frame, point)?;
    frame.put_ticks(&mut text, 1)?;
    put_limits(&mut text, frame, number, point, alarms)?;
    put_turns(&mut text, frame, number, point, alarms, executed)?;
    put_signs(&mut text, frame, number, point, executed)?;
    put_words(&mut text)?;
    put_closing(&mut text)?;
    Ok(text)
}

/// Which point it is.
#[tactic(auto, unfolding(crate::specs::Plots::title_text))]
fn put_title(text: &mut String, number: u32, point: &Point) -> Result<(), Want>
    ensures { OnOk result (string_bytes text.new ≡ string_bytes text.old ++ title_text number point.now) }
{
    put_title_head(text, number)?;
    text.push_str(point.name.as_str())?;
    put_title_end(text, point.proxy)
}

#[tactic(auto, unfolding(crate::specs::Plots::title_head))]
fn put_title_head(text: &mut String, number: u32) -> Result<(), Want>
    ensures { OnOk result (string_bytes text.new ≡ string_bytes text.old ++ title_head number) }
{
    write!(
        text,
        "<text x=\"70\" y=\"20\" fill=\"#202020\">point {number}: "
    )?;
    Ok(())
}

#[tactic(auto, unfolding(crate::specs::Plots::title_end))]
fn put_title_end(text: &mut String, proxy: u32) -> Result<(), Want>
    ensures { OnOk result (string_bytes text.new ≡ string_bytes text.old ++ title_end proxy) }
{
    write!(text, " of p{proxy}, in its own unit</text>\n")?;
    Ok(())
}

/// Lines for the point's greatest value, its least one, and those at quarters between them.
#[tactic(auto, unfolding(crate::specs::Plots::levels_text))]
fn put_levels(text: &mut String, frame: Frame, point: &Point) -> Result<(), Want>
    ensures { OnOk result (string_bytes text.new ≡ string_bytes text.old ++ levels_text frame point.now) }
{
    put_level(text, frame, TOP, point.high)?;
    put_level(text, frame, FOOT, point.low)?;
    put_quarters(text, frame, point, distance(point.low, point.high))
}

#[tactic(auto, unfolding(crate::specs::Plots::quarters_text))]
fn put_quarters(text: &mut String, frame: Frame, point: &Point, range: u64) -> Result<(), Want>
    ensures { OnOk result (string_bytes text.new ≡ string_bytes text.old ++ quarters_text frame point.now range) }
{
    put_quarter(text, frame, point, 100, range / 4)?;
    put_quarter(text, frame, point, 160, range / 2)?;
    put_quarter(text, frame, point, 220, range - range / 4)
}

/// A line for the value that is so much below the point's greatest one.
#[tactic(auto, unfolding(crate::specs::Plots::quarter_text))]
fn put_quarter(
    text: &mut String,
    frame: Frame,
    point: &Point,
    y: u64,
    below: u64,
) -> Result<(), Want>
    ensures { OnOk result (string_bytes text.new ≡ string_bytes text.old ++ quarter_text frame point.now y below) }
{
    put_level(text, frame, y, below_high(point, below))
}

#[tactic(auto, unfolding(crate::specs::Plots::below_high))]
fn below_high(point: &Point, below: u64) -> i64
    ensures { result ≡ below_high point.now below }
{
    point.high.saturating_sub_unsigned(below)
}

#[tactic(auto, unfolding(crate::specs::Plots::level_text))]
fn put_level(text: &mut String, frame: Frame, y: u64, value: i64) -> Result<(), Want>
    ensures { OnOk result (string_bytes text.new ≡ string_bytes text.old ++ level_text frame y value) }
{
    put_line(text, (LEFT, y), (frame.right(), y), "#d8d8d8")?;
    put_value(text, y.saturating_add(4), value)
}

#[tactic(auto, unfolding(crate::specs::Plots::value_at))]
fn put_value(text: &mut String, y: u64, value: i64) -> Result<(), Want>
    ensures { OnOk result (string_bytes text.new ≡ string_bytes text.old ++ value_at y value) }
{
    put_value_at(text, y)?;
    write!(text, "{value}</text>\n")?;
    Ok(())
}

#[tactic(auto, unfolding(crate::specs::Plots::value_head))]
fn put_value_at(text: &mut String, y: u64) -> Result<(), Want>
    ensures { OnOk result (string_bytes text.new ≡ string_bytes text.old ++ value_head y) }
{
    write!(text, "<text x=\"4\" y=\"{y}\" fill=\"#404040\">")?;
    Ok(())
}

/// The signs of all updates, in order.
fn put_signs(
    text: &mut String,
    frame: Frame,
    number: u32,
    point: &Point,
    executed: &[Update],
) -> Result<(), Want>
    ensures { OnOk result (string_bytes text.new ≡ string_bytes text.old ++ signs_text frame number point.now executed.now) }
{
    let mut before = None;
    for (place, update) in executed.iter().enumerate() {
        let here = dot_of(frame, number, point, place as u64, update);
        put_sign(
            text,
            before,
            here,
            box_of(frame, number, point, place as u64, update),
        )?;
        before = here.or(before);
    }
    Ok(())
}

fn put_sign(
    text: &mut String,
    before: Option<Place>,
    here: Option<Place>,
    set: Option<Place>,
) -> Result<(), Want>
    ensures { OnOk result (string_bytes text.new ≡ string_bytes text.old ++ (reading_text before here ++ setting_text set)) }
{
    put_reading(text, before, here)?;
    put_setting(text, set)
}

/// The value of a reading of the point that counts: by its own proxy, within the point's bounds.
pub(crate) fn heard(number: u32, point: &Point, update: &Update) -> Option<i64>
    ensures { result ≡ heard number point.now update.now }
{
    match update.op {
        Op::Reading { point: of, value }
            if of == number && point.proxy == update.client && point.is_within(value) => {
            Some(value)
        }
        _ => None,
    }
}

/// Where a reading of the point stands, where the update is one that counts.
fn dot_of(frame: Frame, number: u32, point: &Point, place: u64, update: &Update) -> Option<Place>
    ensures { result ≡ dot_of frame number point.now place update.now }
{
    match heard(number, point, update) {
        Some(value) => Some((frame.along(place), height_of(point, value))),
        None => None,
    }
}

/// Where a setting of the point stands, where the update is one.
fn box_of(frame: Frame, number: u32, point: &Point, place: u64, update: &Update) -> Option<Place>
    ensures { result ≡ box_of frame number point.now place update.now.op }
{
    match update.op {
        Op::Set { point: of, value } if of == number => {
            Some((frame.along(place), height_of(point, value)))
        }
        _ => None,
    }
}

fn put_reading(text: &mut String, before: Option<Place>, here: Option<Place>) -> Result<(), Want>
    ensures { OnOk result (string_bytes text.new ≡ string_bytes text.old ++ reading_text before here) }
{
    let Some(here) = here else {
        return Ok(());
    };
    if let Some(before) = before {
        put_line(text, before, here, "#2a6fb0")?;
    }
    put_dot(text, here.0, here.1, 3, "#2a6fb0")
}

fn put_setting(text: &mut String, at: Option<Place>) -> Result<(), Want>
    ensures { OnOk result (string_bytes text.new ≡ string_bytes text.old ++ setting_text at) }
{
    let Some((x, y)) = at else {
        return Ok(());
    };
    put_box(
        text,
        x.saturating_sub(4),
        y.saturating_sub(4),
        8,
        8,
        "#d98200",
    )
}

/// What the signs stand for.
#[tactic(auto, unfolding(crate::specs::Plots::legend_words))]
fn put_words(text: &mut String) -> Result<(), Want>
    ensures { OnOk result (string_bytes text.new ≡ string_bytes text.old ++ legend_words) }
{
    text.push_str(PLOT_LEGEND)?;
    Ok(())
}
