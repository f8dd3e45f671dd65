//! The rows of a picture: in each the lane of every actor, and the stamp that it begins with.
ghost use Rattle.std.specs.Prelude.{◌≡◌, ◌≤◌, ◌++◌, OnOk, string_bytes};
ghost use Rattle.std.specs.List.{flat_map};
ghost use Rattle.quorum_sets.specs.Masters.{numbers_below};
ghost use Rattle.scenario_file.specs.Actors.{actors_of};
ghost use Rattle.lane_pictures.specs.Drawing.{halted_text, lane_text, name_at, row_text, stamp_at, stamp_text};

use crate::picture::Lane;
use crate::sheet::{LEFT, Sheet};
use crate::style::lane_colour;
use plain_lists::Want;
use run_lines::put_actor;
use scenario_file::Cast;
use svg_shapes::put_line;

/// So many rows.
pub(crate) fn put_rows(
    text: &mut String,
    cast: Cast,
    sheet: Sheet,
    lanes: &[Lane],
    rows: u64,
) -> Result<(), Want>
    requires { actors_of cast ≤ 26 }
    ensures { OnOk result (string_bytes text.new ≡ string_bytes text.old ++ flat_map (row_text cast sheet lanes.now) (numbers_below rows)) }
{
    for row in 0..rows {
        put_row(text, cast, sheet, lanes, row)?;
    }
    Ok(())
}

#[tactic(auto, unfolding(crate::specs::Drawing::row_text))]
fn put_row(
    text: &mut String,
    cast: Cast,
    sheet: Sheet,
    lanes: &[Lane],
    row: u64,
) -> Result<(), Want>
    requires { actors_of cast ≤ 26 }
    ensures { OnOk result (string_bytes text.new ≡ string_bytes text.old ++ row_text cast sheet lanes.now row) }
{
    put_stamp(text, sheet, row)?;
    put_lanes(text, cast, sheet, row, lanes)
}

/// The stamp that a row begins with.
#[tactic(auto, unfolding(crate::specs::Drawing::stamp_text))]
fn put_stamp(text: &mut String, sheet: Sheet, row: u64) -> Result<(), Want>
    ensures { OnOk result (string_bytes text.new ≡ string_bytes text.old ++ stamp_text sheet row) }
{
    let y = row.saturating_mul(sheet.height).saturating_add(20);
    let stamp = sheet
        .first
        .saturating_add(row.saturating_mul(sheet.columns));
    put_stamp_at(text, y, stamp)
}

#[tactic(auto, unfolding(crate::specs::Drawing::stamp_at))]
fn put_stamp_at(text: &mut String, y: u64, stamp: u64) -> Result<(), Want>
    ensures { OnOk result (string_bytes text.new ≡ string_bytes text.old ++ stamp_at y stamp) }
{
    write!(
        text,
        "<text x=\"70\" y=\"{y}\" fill=\"#707070\">from entry {stamp}</text>\n"
    )?;
    Ok(())
}

fn put_lanes(
    text: &mut String,
    cast: Cast,
    sheet: Sheet,
    row: u64,
    lanes: &[Lane],
) -> Result<(), Want>
    requires { actors_of cast ≤ 26 }
    ensures { OnOk result (string_bytes text.new ≡ string_bytes text.old ++ flat_map (lane_text cast sheet row) lanes.now) }
{
    for lane in lanes {
        put_lane(text, cast, sheet, row, *lane)?;
    }
    Ok(())
}

/// The name of an actor and the line on which its entries stand.
#[tactic(auto, unfolding(crate::specs::Drawing::lane_text))]
fn put_lane(text: &mut String, cast: Cast, sheet: Sheet, row: u64, lane: Lane) -> Result<(), Want>
    requires { actors_of cast ≤ 26 }
    ensures { OnOk result (string_bytes text.new ≡ string_bytes text.old ++ lane_text cast sheet row lane) }
{
    let y = sheet.level(row, lane.actor);
    let colour = lane_colour(lane.role);
    put_line(text, (LEFT, y), (sheet.edge(), y), colour)?;
    let name_at = y.saturating_add(4);
    put_name_at(text, name_at, colour)?;
    put_actor(text, cast, lane.actor)?;
    put_halted(text, lane.is_halted)?;
    text.push_str("</text>\n")?;
    Ok(())
}

#[tactic(auto, unfolding(crate::specs::Drawing::name_at))]
fn put_name_at(text: &mut String, y: u64, colour: &str) -> Result<(), Want>
    ensures { OnOk result (string_bytes text.new ≡ string_bytes text.old ++ name_at y colour.now) }
{
    write!(text, "<text x=\"8\" y=\"{y}\" fill=\"{colour}\">")?;
    Ok(())
}

fn put_halted(text: &mut String, is_halted: bool) -> Result<(), Want>
    ensures { OnOk result (string_bytes text.new ≡ string_bytes text.old ++ halted_text is_halted) }
{
    if is_halted {
        text.push_str(" halted")?;
    }
    Ok(())
}
