//! The bands of the views that correct masters were in: each piece reaches from an entry of its master to the next one.
ghost use Rattle.std.specs.Prelude.{◌≡◌, ◌++◌, OnOk, string_bytes};
ghost use Rattle.std.specs.List.{flat_map};
ghost use Rattle.lane_pictures.specs.Drawing.{band_shown, band_text, begun_text, entered_text, first_text, joint_text, number_of_view, strip_text, view_shown};

use crate::picture::{Mark, Range};
use crate::sheet::{HALF, Joined, LEFT, Sheet};
use plain_lists::Want;
use svg_shapes::{put_box, put_view, shade_of};

/// The bands up to the marks of a range.
pub(crate) fn put_bands(
    text: &mut String,
    sheet: Sheet,
    range: Range,
    marks: &[Mark],
) -> Result<(), Want>
    ensures { OnOk result (string_bytes text.new ≡ string_bytes text.old ++ flat_map (band_shown sheet range) marks.now) }
{
    for mark in marks {
        put_band_shown(text, sheet, range, *mark)?;
    }
    Ok(())
}

fn put_band_shown(text: &mut String, sheet: Sheet, range: Range, mark: Mark) -> Result<(), Want>
    ensures { OnOk result (string_bytes text.new ≡ string_bytes text.old ++ band_shown sheet range mark) }
{
    if range.has(mark.stamp) && mark.role.is_master() {
        put_band(text, sheet, mark)?;
    }
    Ok(())
}

#[tactic(auto, unfolding(crate::specs::Drawing::band_text))]
fn put_band(text: &mut String, sheet: Sheet, mark: Mark) -> Result<(), Want>
    ensures { OnOk result (string_bytes text.new ≡ string_bytes text.old ++ band_text sheet mark) }
{
    put_joint(text, sheet, mark, sheet.joined(mark.since, mark.stamp))
}

/// The pieces from the master's entry before.
fn put_joint(text: &mut String, sheet: Sheet, mark: Mark, joined: Joined) -> Result<(), Want>
    ensures { OnOk result (string_bytes text.new ≡ string_bytes text.old ++ joint_text sheet mark joined) }
{
    match joined {
        Joined::Here { from } => {
            let row = sheet.row_of(mark.stamp);
            put_strip(
                text,
                sheet,
                mark,
                row,
                (sheet.across(from), sheet.across(mark.stamp)),
            )
        }
        Joined::Above { from } => {
            let row = sheet.row_of(from);
            put_strip(text, sheet, mark, row, (sheet.across(from), sheet.edge()))?;
            put_first(text, sheet, mark)
        }
        Joined::Apart => put_first(text, sheet, mark),
    }
}

/// The first piece of a row.
#[tactic(auto, unfolding(crate::specs::Drawing::first_text))]
fn put_first(text: &mut String, sheet: Sheet, mark: Mark) -> Result<(), Want>
    ensures { OnOk result (string_bytes text.new ≡ string_bytes text.old ++ first_text sheet mark) }
{
    let row = sheet.row_of(mark.stamp);
    put_strip(text, sheet, mark, row, (LEFT, sheet.across(mark.stamp)))
}

/// A piece in a row, from one place to another.
#[tactic(auto, unfolding(crate::specs::Drawing::strip_text))]
fn put_strip(
    text: &mut String,
    sheet: Sheet,
    mark: Mark,
    row: u64,
    ends: (u64, u64),
) -> Result<(), Want>
    ensures { OnOk result (string_bytes text.new ≡ string_bytes text.old ++ strip_text sheet mark row ends.0 ends.1) }
{
    let (from, to) = ends;
    put_box(
        text,
        from,
        sheet.level(row, mark.actor).saturating_sub(HALF),
        to.saturating_sub(from),
        HALF + HALF,
        shade_of(mark.was),
    )
}

/// The numbers of views, where a band begins in a row and where a master entered one, at the marks of a range.
pub(crate) fn put_views(
    text: &mut String,
    sheet: Sheet,
    range: Range,
    marks: &[Mark],
) -> Result<(), Want>
    ensures { OnOk result (string_bytes text.new ≡ string_bytes text.old ++ flat_map (view_shown sheet range) marks.now) }
{
    for mark in marks {
        put_view_shown(text, sheet, range, *mark)?;
    }
    Ok(())
}

fn put_view_shown(text: &mut String, sheet: Sheet, range: Range, mark: Mark) -> Result<(), Want>
    ensures { OnOk result (string_bytes text.new ≡ string_bytes text.old ++ view_shown sheet range mark) }
{
    if range.has(mark.stamp) && mark.role.is_master() {
        put_numbers(text, sheet, mark)?;
    }
    Ok(())
}

#[tactic(auto, unfolding(crate::specs::Drawing::number_of_view))]
fn put_numbers(text: &mut String, sheet: Sheet, mark: Mark) -> Result<(), Want>
    ensures { OnOk result (string_bytes text.new ≡ string_bytes text.old ++ number_of_view sheet mark) }
{
    put_begun(text, sheet, mark, sheet.joined(mark.since, mark.stamp))?;
    put_entered(text, sheet, mark)
}

fn put_begun(text: &mut String, sheet: Sheet, mark: Mark, joined: Joined) -> Result<(), Want>
    ensures { OnOk result (string_bytes text.new ≡ string_bytes text.old ++ begun_text sheet mark joined) }
{
    match joined {
        Joined::Here { from: _ } => Ok(()),
        Joined::Above { from: _ } | Joined::Apart => {
            let y = sheet
                .level(sheet.row_of(mark.stamp), mark.actor)
                .saturating_sub(9);
            put_view(text, LEFT, y, mark.was)
        }
    }
}

/// The number of a view that the master entered.
#[tactic(auto, unfolding(crate::specs::Drawing::entered_text))]
fn put_entered(text: &mut String, sheet: Sheet, mark: Mark) -> Result<(), Want>
    ensures { OnOk result (string_bytes text.new ≡ string_bytes text.old ++ entered_text sheet mark) }
{
    if mark.was == mark.view {
        return Ok(());
    }
    let y = sheet
        .level(sheet.row_of(mark.stamp), mark.actor)
        .saturating_sub(9);
    put_view(text, sheet.across(mark.stamp), y, mark.view)
}
