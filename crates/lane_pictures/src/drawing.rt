//! The picture of a history, or of a part of it, as an SVG document.
ghost use Rattle.std.specs.Prelude.{◌≡◌, ◌≤◌, IfOk, string_bytes};
ghost use Rattle.scenario_file.specs.Actors.{actors_of};
ghost use Rattle.lane_pictures.specs.Drawing.{picture_text, rows_of};

use crate::arrows::put_arrows;
use crate::bands::{put_bands, put_views};
use crate::legend::put_legend;
use crate::marks::put_marks;
use crate::picture::{Lane, Mark, Range};
use crate::rows::put_rows;
use crate::sheet::Sheet;
use plain_lists::Want;
use scenario_file::Cast;
use std::alloc::Global;
use svg_shapes::{put_closing, put_head};

/// The room that the legend takes.
const LEGEND_HEIGHT: u64 = 150;

/// The picture of the marks of a range.
#[tactic(auto, unfolding(crate::specs::Drawing::picture_text))]
pub fn drawn(
    alloc: Global,
    cast: Cast,
    sheet: Sheet,
    range: Range,
    lanes: &[Lane],
    marks: &[Mark],
) -> Result<String, Want>
    requires { actors_of cast ≤ 26 }
    ensures { IfOk result (λ text. string_bytes text ≡ picture_text cast sheet range lanes.now marks.now) }
{
    let mut text = String::new(alloc);
    let rows = rows_of(sheet, range);
    let bottom = sheet.bottom(rows);
    put_head(&mut text, sheet.width, bottom.saturating_add(LEGEND_HEIGHT))?;
    put_bands(&mut text, sheet, range, marks)?;
    put_views(&mut text, sheet, range, marks)?;
    put_rows(&mut text, cast, sheet, lanes, rows)?;
    put_arrows(&mut text, sheet, range, marks)?;
    put_marks(&mut text, cast, sheet, range, marks)?;
    put_legend(&mut text, bottom)?;
    put_closing(&mut text)?;
    Ok(text)
}

/// How many rows a range has.
#[tactic(auto, unfolding(crate::specs::Drawing::rows_of))]
fn rows_of(sheet: Sheet, range: Range) -> u64
    ensures { result ≡ rows_of sheet range }
{
    sheet.row_of(range.last).saturating_add(1)
}
