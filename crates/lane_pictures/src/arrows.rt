//! The lines from where frames were said to where they were taken.
ghost use Rattle.std.specs.Prelude.{◌≡◌, ◌++◌, OnOk, string_bytes};
ghost use Rattle.std.specs.List.{flat_map};
ghost use Rattle.lane_pictures.specs.Drawing.{arrow_of, arrow_shown, source_of, towards};

use crate::picture::{Mark, Range, What};
use crate::sheet::{Joined, Sheet};
use crate::style::family_of;
use plain_lists::Want;
use svg_shapes::put_line;

/// The lines to the marks of a range.
pub(crate) fn put_arrows(
    text: &mut String,
    sheet: Sheet,
    range: Range,
    marks: &[Mark],
) -> Result<(), Want>
    ensures { OnOk result (string_bytes text.new ≡ string_bytes text.old ++ flat_map (arrow_shown sheet range) marks.now) }
{
    for mark in marks {
        put_arrow_shown(text, sheet, range, *mark)?;
    }
    Ok(())
}

fn put_arrow_shown(text: &mut String, sheet: Sheet, range: Range, mark: Mark) -> Result<(), Want>
    ensures { OnOk result (string_bytes text.new ≡ string_bytes text.old ++ arrow_shown sheet range mark) }
{
    if range.has(mark.stamp) {
        put_arrow(text, sheet, mark)?;
    }
    Ok(())
}

fn put_arrow(text: &mut String, sheet: Sheet, mark: Mark) -> Result<(), Want>
    ensures { OnOk result (string_bytes text.new ≡ string_bytes text.old ++ arrow_of sheet mark mark.what) }
{
    let What::Took {
        kind,
        by,
        said_at: Some(stamp),
    } = mark.what
    else {
        return Ok(());
    };
    let from = source_of(sheet, mark, sheet.joined(Some(stamp), mark.stamp), by);
    let to = (
        sheet.across(mark.stamp),
        sheet.level(sheet.row_of(mark.stamp), mark.actor),
    );
    put_line(text, from, to, family_of(kind).colour())
}

/// Where the line to a mark begins. What was said in a row above, or before the picture, has a short one.
fn source_of(sheet: Sheet, mark: Mark, joined: Joined, by: u32) -> (u64, u64)
    ensures { result ≡ source_of sheet mark joined by }
{
    let row = sheet.row_of(mark.stamp);
    match joined {
        Joined::Here { from } => (sheet.across(from), sheet.level(row, by)),
        Joined::Above { from: _ } | Joined::Apart => (
            sheet.across(mark.stamp).saturating_sub(10),
            towards(by, mark.actor, sheet.level(row, mark.actor)),
        ),
    }
}

/// A little above or below a lane, towards another one.
fn towards(by: u32, actor: u32, y: u64) -> u64
    ensures { result ≡ towards by actor y }
{
    if by < actor {
        y.saturating_sub(12)
    } else {
        y.saturating_add(12)
    }
}
