//! How long updates took, each at each actor.
ghost use Rattle.std.specs.Prelude.{◌≡◌, ◌++◌, IfOk, OnOk, string_bytes};
ghost use Rattle.std.specs.List.{flat_map};
ghost use Rattle.axis_pictures.specs.Charts.{bar_of, bar_text, chart_text, colour_at, greatest_text, legend_words, level_text, levels_text, longer, longest, reign_text};

use crate::frame::{FOOT, Frame, LEFT, TOP, rise};
use crate::legend::CHART_LEGEND;
use crate::plot::HEIGHT;
use delay_times::{Delay, Delays, Outcome, Reign};
use plain_lists::Want;
use std::alloc::Global;
use svg_shapes::{
    WRONG, put_box, put_closing, put_dashes, put_dot, put_head, put_line, put_number, put_view,
    shade_of,
};

/// The chart of a history's delays, whose first actors are so many masters.
#[tactic(auto, unfolding(crate::specs::Charts::chart_text))]
pub fn chart_of(alloc: Global, frame: Frame, masters: u32, delays: &Delays) -> Result<String, Want>
    ensures { IfOk result (λ text. string_bytes text ≡ chart_text frame masters delays.now) }
{
    let mut text = String::new(alloc);
    let outcomes = delays.outcomes.as_slice();
    let greatest = longest(outcomes);
    put_head(&mut text, frame.width, HEIGHT)?;
    put_reigns(&mut text, frame, delays.reigns.as_slice())?;
    put_levels(&mut text, frame, greatest)?;
    frame.put_ticks(&mut text, 0)?;
    put_bars(&mut text, frame, masters, greatest, outcomes)?;
    put_words(&mut text)?;
    put_closing(&mut text)?;
    Ok(text)
}

/// The longest delay in entries, 0 where there is none.
fn longest(outcomes: &[Outcome]) -> u64
    ensures { result ≡ longest outcomes.now }
{
    let mut best = 0;
    for outcome in outcomes {
        best = longer(best, outcome.delay);
    }
    best
}

fn longer(best: u64, delay: Option<Delay>) -> u64
    ensures { result ≡ longer best delay }
{
    match delay {
        Some(delay) => best.max(delay.entries),
        None => best,
    }
}

/// The views in turn.
fn put_reigns(text: &mut String, frame: Frame, reigns: &[Reign]) -> Result<(), Want>
    ensures { OnOk result (string_bytes text.new ≡ string_bytes text.old ++ flat_map (reign_text frame) reigns.now) }
{
    for reign in reigns {
        put_reign(text, frame, *reign)?;
    }
    Ok(())
}

#[tactic(auto, unfolding(crate::specs::Charts::reign_text))]
fn put_reign(text: &mut String, frame: Frame, reign: Reign) -> Result<(), Want>
    ensures { OnOk result (string_bytes text.new ≡ string_bytes text.old ++ reign_text frame reign) }
{
    let x = frame.along(reign.from);
    let end = reign.to.unwrap_or(frame.count.saturating_sub(1));
    let width = frame.along(end).saturating_sub(x);
    put_box(text, x, TOP, width, 240, shade_of(reign.view))?;
    put_view(text, x, 36, reign.view)
}

/// No delay, half the longest one, and the longest one.
#[tactic(auto, unfolding(crate::specs::Charts::levels_text))]
fn put_levels(text: &mut String, frame: Frame, greatest: u64) -> Result<(), Want>
    ensures { OnOk result (string_bytes text.new ≡ string_bytes text.old ++ levels_text frame greatest) }
{
    let half = greatest / 2;
    put_level(text, frame, FOOT, 0)?;
    put_level(text, frame, rise(greatest, half), half)?;
    put_greatest(text, frame, rise(greatest, greatest), greatest)
}

#[tactic(auto, unfolding(crate::specs::Charts::level_text))]
fn put_level(text: &mut String, frame: Frame, y: u64, count: u64) -> Result<(), Want>
    ensures { OnOk result (string_bytes text.new ≡ string_bytes text.old ++ level_text frame y count) }
{
    put_line(text, (LEFT, y), (frame.right(), y), "#b0b0b0")?;
    put_number(text, 30, y.saturating_add(4), "#404040", count)
}

#[tactic(auto, unfolding(crate::specs::Charts::greatest_text))]
fn put_greatest(text: &mut String, frame: Frame, y: u64, count: u64) -> Result<(), Want>
    ensures { OnOk result (string_bytes text.new ≡ string_bytes text.old ++ greatest_text frame y count) }
{
    put_dashes(text, (LEFT, y), (frame.right(), y), WRONG)?;
    put_number(text, 30, y.saturating_add(4), WRONG, count)
}

fn put_bars(
    text: &mut String,
    frame: Frame,
    masters: u32,
    greatest: u64,
    outcomes: &[Outcome],
) -> Result<(), Want>
    ensures { OnOk result (string_bytes text.new ≡ string_bytes text.old ++ flat_map (bar_text frame masters greatest) outcomes.now) }
{
    for outcome in outcomes {
        put_bar(text, frame, masters, greatest, *outcome)?;
    }
    Ok(())
}

#[tactic(auto, unfolding(crate::specs::Charts::bar_text))]
fn put_bar(
    text: &mut String,
    frame: Frame,
    masters: u32,
    greatest: u64,
    outcome: Outcome,
) -> Result<(), Want>
    ensures { OnOk result (string_bytes text.new ≡ string_bytes text.old ++ bar_text frame masters greatest outcome) }
{
    let x = frame.along(outcome.said);
    let Some(delay) = outcome.delay else {
        return put_dot(text, x, 28, 4, WRONG);
    };
    let y = rise(greatest, delay.entries);
    put_box(
        text,
        x.saturating_sub(1),
        y,
        2,
        FOOT.saturating_sub(y),
        "#9db8d6",
    )?;
    put_dot(text, x, y, 3, colour_at(masters, outcome.actor))
}

/// Masters and screens by their colours.
fn colour_at(masters: u32, actor: u32) -> &'static str
    ensures { result.now ≡ colour_at masters actor }
{
    if actor < masters {
        "#2a6fb0"
    } else {
        "#d98200"
    }
}

/// What the signs stand for.
#[tactic(auto, unfolding(crate::specs::Charts::legend_words))]
fn put_words(text: &mut String) -> Result<(), Want>
    ensures { OnOk result (string_bytes text.new ≡ string_bytes text.old ++ legend_words) }
{
    text.push_str(CHART_LEGEND)?;
    Ok(())
}
