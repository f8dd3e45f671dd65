//! The marks of entries: a sign for what came to the actor, what it did, and all of it in words.
ghost use Rattle.std.specs.Prelude.{◌≡◌, ◌≤◌, ◌++◌, OnOk, string_bytes};
ghost use Rattle.std.specs.List.{flat_map};
ghost use Rattle.scenario_file.specs.Actors.{actors_of};
ghost use Rattle.lane_pictures.specs.Drawing.{count_text, deed_text, deeds_text, group_text, shown_text, sign_text, title_text, took_text, what_text};

use crate::picture::{Mark, Range, What};
use crate::sheet::Sheet;
use crate::style::family_of;
use plain_lists::Want;
use run_lines::put_actor;
use scenario_file::Cast;
use svg_shapes::{WRONG, put_box, put_dot, put_number, put_ring};

/// The marks of the entries of a range, in order.
pub(crate) fn put_marks(
    text: &mut String,
    cast: Cast,
    sheet: Sheet,
    range: Range,
    marks: &[Mark],
) -> Result<(), Want>
    requires { actors_of cast ≤ 26 }
    ensures { OnOk result (string_bytes text.new ≡ string_bytes text.old ++ flat_map (shown_text cast sheet range) marks.now) }
{
    for mark in marks {
        put_shown(text, cast, sheet, range, *mark)?;
    }
    Ok(())
}

fn put_shown(
    text: &mut String,
    cast: Cast,
    sheet: Sheet,
    range: Range,
    mark: Mark,
) -> Result<(), Want>
    requires { actors_of cast ≤ 26 }
    ensures { OnOk result (string_bytes text.new ≡ string_bytes text.old ++ shown_text cast sheet range mark) }
{
    if range.has(mark.stamp) {
        put_mark(text, cast, sheet, mark)?;
    }
    Ok(())
}

/// The mark of an entry, with its words as a title.
#[tactic(auto, unfolding(crate::specs::Drawing::group_text))]
fn put_mark(text: &mut String, cast: Cast, sheet: Sheet, mark: Mark) -> Result<(), Want>
    requires { actors_of cast ≤ 26 }
    ensures { OnOk result (string_bytes text.new ≡ string_bytes text.old ++ group_text cast sheet mark) }
{
    let x = sheet.across(mark.stamp);
    let y = sheet.level(sheet.row_of(mark.stamp), mark.actor);
    text.push_str("<g><title>")?;
    put_title(text, cast, mark)?;
    text.push_str("</title>\n")?;
    put_sign(text, mark.what, x, y)?;
    put_deeds(text, mark, x, y)?;
    text.push_str("</g>\n")?;
    Ok(())
}

/// The sign of what came to the actor.
fn put_sign(text: &mut String, what: What, x: u64, y: u64) -> Result<(), Want>
    ensures { OnOk result (string_bytes text.new ≡ string_bytes text.old ++ sign_text what x y) }
{
    match what {
        What::Took {
            kind,
            by: _,
            said_at: Some(_),
        } => put_dot(text, x, y, 3, family_of(kind).colour()),
        What::Took {
            kind: _,
            by: _,
            said_at: None,
        } => put_dot(text, x, y, 5, WRONG),
        What::Tick => put_box(
            text,
            x.saturating_sub(1),
            y.saturating_sub(5),
            2,
            10,
            "#404040",
        ),
        What::Command => put_box(
            text,
            x.saturating_sub(4),
            y.saturating_sub(4),
            8,
            8,
            "#000000",
        ),
        What::Field => put_box(
            text,
            x.saturating_sub(4),
            y.saturating_sub(2),
            8,
            4,
            "#2a6fb0",
        ),
        What::Poll => put_ring(text, x, y, 4, "#2a6fb0"),
        What::Cry => put_box(text, x.saturating_sub(4), y.saturating_sub(4), 8, 8, WRONG),
        What::Skip => put_dot(text, x, y, 1, "#404040"),
        What::Restart => put_ring(text, x, y, 6, "#404040"),
    }
}

/// What the actor did at the entry: updates executed below the line, values written and notices shown above it.
#[tactic(auto, unfolding(crate::specs::Drawing::deeds_text))]
fn put_deeds(text: &mut String, mark: Mark, x: u64, y: u64) -> Result<(), Want>
    ensures { OnOk result (string_bytes text.new ≡ string_bytes text.old ++ deeds_text mark x y) }
{
    let (beside, above) = (x.saturating_sub(3), y.saturating_sub(8));
    put_deed(
        text,
        (beside, y.saturating_add(16)),
        "#2e8b57",
        mark.executed,
    )?;
    put_deed(text, (beside, above), "#000000", mark.written)?;
    put_deed(text, (beside, above), "#d98200", mark.shown)
}

fn put_deed(text: &mut String, at: (u64, u64), colour: &str, count: u64) -> Result<(), Want>
    ensures { OnOk result (string_bytes text.new ≡ string_bytes text.old ++ deed_text at.0 at.1 colour.now count) }
{
    if count > 0 {
        put_number(text, at.0, at.1, colour, count)?;
    }
    Ok(())
}

/// The words of an entry.
#[tactic(auto, unfolding(crate::specs::Drawing::title_text))]
fn put_title(text: &mut String, cast: Cast, mark: Mark) -> Result<(), Want>
    requires { actors_of cast ≤ 26 }
    ensures { OnOk result (string_bytes text.new ≡ string_bytes text.old ++ title_text cast mark) }
{
    let stamp = mark.stamp;
    write!(text, "{stamp} ")?;
    put_actor(text, cast, mark.actor)?;
    text.push_str(" ")?;
    put_what(text, mark.what)?;
    put_count(text, "says", mark.said)?;
    put_count(text, "executes", mark.executed)?;
    put_count(text, "writes", mark.written)?;
    put_count(text, "shows", mark.shown)
}

fn put_what(text: &mut String, what: What) -> Result<(), Want>
    ensures { OnOk result (string_bytes text.new ≡ string_bytes text.old ++ what_text what) }
{
    match what {
        What::Took {
            kind,
            by: _,
            said_at,
        } => return put_took(text, kind.name(), said_at),
        What::Tick => text.push_str("tick")?,
        What::Command => text.push_str("command")?,
        What::Field => text.push_str("field")?,
        What::Poll => text.push_str("poll")?,
        What::Cry => text.push_str("cry")?,
        What::Skip => text.push_str("skip")?,
        What::Restart => text.push_str("restart")?,
    }
    Ok(())
}

fn put_took(text: &mut String, name: &str, said_at: Option<u64>) -> Result<(), Want>
    ensures { OnOk result (string_bytes text.new ≡ string_bytes text.old ++ took_text name.now said_at) }
{
    match said_at {
        Some(stamp) => write!(text, "took {name} of {stamp}")?,
        None => write!(text, "took {name} that nobody said")?,
    }
    Ok(())
}

fn put_count(text: &mut String, deed: &str, count: u64) -> Result<(), Want>
    ensures { OnOk result (string_bytes text.new ≡ string_bytes text.old ++ count_text deed.now count) }
{
    if count > 0 {
        write!(text, ", {deed} {count}")?;
    }
    Ok(())
}
