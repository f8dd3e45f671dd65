//! The text of a history's delays.
ghost use Rattle.std.specs.Prelude.{◌≡◌, ◌≤◌, ◌++◌, IfOk, OnOk, string_bytes};
ghost use Rattle.std.specs.List.{flat_map};
ghost use Rattle.scenario_file.specs.Actors.{actors_of};
ghost use Rattle.delay_times.specs.Texts.{delay_text, delays_text, figures_text, unexecuted_count, unexecuted_line, unexecuted_text, name_text, reign_text, reigns_text, spread_head, spread_text, spreads_text, to_text, view_text, outcome_head, outcome_text, outcomes_text};

use crate::happening::Name;
use crate::outcomes::{Delay, Outcome};
use crate::reigns::Reign;
use crate::spreads::{Figures, Spread};
use crate::table::Delays;
use crate::unexecuted::Unexecuted;
use plain_lists::Want;
use run_lines::{put_actor, put_client};
use scenario_file::Cast;
use std::alloc::Global;

/// The lines of the views, of how delays spread, of the updates that not all correct masters executed, and of each outcome. Each
/// part begins with how many lines it has.
#[tactic(auto, unfolding(crate::specs::Texts::delays_text))]
pub fn delays_text(alloc: Global, cast: Cast, delays: &Delays) -> Result<Vec<u8>, Want>
    requires masters { 1 ≤ cast.masters }
    requires actors { actors_of cast ≤ 26 }
    ensures { IfOk result (λ text. text.items ≡ delays_text cast delays.now) }
{
    let mut text = String::new(alloc);
    put_reigns(&mut text, cast, delays.reigns.as_slice())?;
    put_spreads(&mut text, cast, delays.spreads.as_slice())?;
    put_unexecuted(&mut text, cast, delays.unexecuted.as_slice())?;
    put_outcomes(&mut text, cast, delays.outcomes.as_slice())?;
    Ok(text.into_bytes())
}

#[tactic(auto, unfolding(crate::specs::Texts::reigns_text))]
fn put_reigns(text: &mut String, cast: Cast, reigns: &[Reign]) -> Result<(), Want>
    requires { 1 ≤ cast.masters }
    ensures { OnOk result (string_bytes text.new ≡ string_bytes text.old ++ reigns_text cast reigns.now) }
{
    let count = reigns.len();
    write!(text, "views {count}\n")?;
    put_reign_lines(text, cast, reigns)
}

fn put_reign_lines(text: &mut String, cast: Cast, reigns: &[Reign]) -> Result<(), Want>
    requires { 1 ≤ cast.masters }
    ensures { OnOk result (string_bytes text.new ≡ string_bytes text.old ++ flat_map (reign_text cast) reigns.now) }
{
    for reign in reigns {
        put_reign(text, cast, *reign)?;
    }
    Ok(())
}

/// Appends the line of a view, as `view 1 leader m1 from 40 to 90 votes 3 idle 17`.
#[tactic(auto, unfolding(crate::specs::Texts::reign_text))]
fn put_reign(text: &mut String, cast: Cast, reign: Reign) -> Result<(), Want>
    requires { 1 ≤ cast.masters }
    ensures { OnOk result (string_bytes text.new ≡ string_bytes text.old ++ reign_text cast reign) }
{
    let votes = reign.votes;
    let idle = reign.idle;
    put_view(text, cast, reign)?;
    put_to(text, reign.to)?;
    write!(text, " votes {votes} idle {idle}\n")?;
    Ok(())
}

#[tactic(auto, unfolding(crate::specs::Texts::view_text))]
fn put_view(text: &mut String, cast: Cast, reign: Reign) -> Result<(), Want>
    requires { 1 ≤ cast.masters }
    ensures { OnOk result (string_bytes text.new ≡ string_bytes text.old ++ view_text cast reign) }
{
    let view = reign.view;
    let leader = view % u64::from(cast.masters);
    let from = reign.from;
    write!(text, "view {view} leader m{leader} from {from}")?;
    Ok(())
}

fn put_to(text: &mut String, to: Option<u64>) -> Result<(), Want>
    ensures { OnOk result (string_bytes text.new ≡ string_bytes text.old ++ to_text to) }
{
    if let Some(stamp) = to {
        write!(text, " to {stamp}")?;
    }
    Ok(())
}

#[tactic(auto, unfolding(crate::specs::Texts::spreads_text))]
fn put_spreads(text: &mut String, cast: Cast, spreads: &[Spread]) -> Result<(), Want>
    requires { actors_of cast ≤ 26 }
    ensures { OnOk result (string_bytes text.new ≡ string_bytes text.old ++ spreads_text cast spreads.now) }
{
    let count = spreads.len();
    write!(text, "spreads {count}\n")?;
    put_spread_lines(text, cast, spreads)
}

fn put_spread_lines(text: &mut String, cast: Cast, spreads: &[Spread]) -> Result<(), Want>
    requires { actors_of cast ≤ 26 }
    ensures { OnOk result (string_bytes text.new ≡ string_bytes text.old ++ flat_map (spread_text cast) spreads.now) }
{
    for spread in spreads {
        put_spread(text, cast, *spread)?;
    }
    Ok(())
}

/// Appends the line of a spread, as `s0 at m1 said 4 ended 4 entries 20 25 31 31 ticks 2 2 3 3`.
#[tactic(auto, unfolding(crate::specs::Texts::spread_text))]
fn put_spread(text: &mut String, cast: Cast, spread: Spread) -> Result<(), Want>
    requires { actors_of cast ≤ 26 }
    ensures { OnOk result (string_bytes text.new ≡ string_bytes text.old ++ spread_text cast spread) }
{
    put_spread_head(text, cast, spread)?;
    text.push_str(" entries")?;
    put_figures(text, spread.entries)?;
    text.push_str(" ticks")?;
    put_figures(text, spread.ticks)?;
    text.push_str("\n")?;
    Ok(())
}

#[tactic(auto, unfolding(crate::specs::Texts::spread_head))]
fn put_spread_head(text: &mut String, cast: Cast, spread: Spread) -> Result<(), Want>
    requires { actors_of cast ≤ 26 }
    ensures { OnOk result (string_bytes text.new ≡ string_bytes text.old ++ spread_head cast spread) }
{
    let said = spread.said;
    let ended = spread.ended;
    put_client(text, cast, spread.client)?;
    text.push_str(" at ")?;
    put_actor(text, cast, spread.actor)?;
    write!(text, " said {said} ended {ended}")?;
    Ok(())
}

#[tactic(auto, unfolding(crate::specs::Texts::figures_text))]
fn put_figures(text: &mut String, figures: Figures) -> Result<(), Want>
    ensures { OnOk result (string_bytes text.new ≡ string_bytes text.old ++ figures_text figures) }
{
    let median = figures.median;
    let ninetieth = figures.ninetieth;
    let ninety_ninth = figures.ninety_ninth;
    let greatest = figures.greatest;
    write!(text, " {median} {ninetieth} {ninety_ninth} {greatest}")?;
    Ok(())
}

/// Appends an update's client and number, and when it was said, as `s0 3 said 17`.
#[tactic(auto, unfolding(crate::specs::Texts::name_text))]
fn put_name(text: &mut String, cast: Cast, name: Name, said: u64) -> Result<(), Want>
    ensures { OnOk result (string_bytes text.new ≡ string_bytes text.old ++ name_text cast name said) }
{
    let t = name.t;
    put_client(text, cast, name.client)?;
    write!(text, " {t} said {said}")?;
    Ok(())
}

#[tactic(auto, unfolding(crate::specs::Texts::unexecuted_text))]
fn put_unexecuted(text: &mut String, cast: Cast, unexecuted: &[Unexecuted]) -> Result<(), Want>
    ensures { OnOk result (string_bytes text.new ≡ string_bytes text.old ++ unexecuted_text cast unexecuted.now) }
{
    put_unexecuted_count(text, unexecuted.len())?;
    put_unexecuted_lines(text, cast, unexecuted)
}

#[tactic(auto, unfolding(crate::specs::Texts::unexecuted_count))]
fn put_unexecuted_count(text: &mut String, count: usize) -> Result<(), Want>
    ensures { OnOk result (string_bytes text.new ≡ string_bytes text.old ++ unexecuted_count count) }
{
    write!(text, "unexecuted {count}\n")?;
    Ok(())
}

fn put_unexecuted_lines(
    text: &mut String,
    cast: Cast,
    unexecuted: &[Unexecuted],
) -> Result<(), Want>
    ensures { OnOk result (string_bytes text.new ≡ string_bytes text.old ++ flat_map (unexecuted_line cast) unexecuted.now) }
{
    for update in unexecuted {
        put_unexecuted_line(text, cast, *update)?;
    }
    Ok(())
}

/// Appends the line of an update that not all correct masters executed, as `s0 3 said 17 executed 2`.
#[tactic(auto, unfolding(crate::specs::Texts::unexecuted_line))]
fn put_unexecuted_line(text: &mut String, cast: Cast, update: Unexecuted) -> Result<(), Want>
    ensures { OnOk result (string_bytes text.new ≡ string_bytes text.old ++ unexecuted_line cast update) }
{
    let executed = update.executed;
    put_name(text, cast, update.name, update.said)?;
    write!(text, " executed {executed}\n")?;
    Ok(())
}

#[tactic(auto, unfolding(crate::specs::Texts::outcomes_text))]
fn put_outcomes(text: &mut String, cast: Cast, outcomes: &[Outcome]) -> Result<(), Want>
    requires { actors_of cast ≤ 26 }
    ensures { OnOk result (string_bytes text.new ≡ string_bytes text.old ++ outcomes_text cast outcomes.now) }
{
    let count = outcomes.len();
    write!(text, "outcomes {count}\n")?;
    put_outcome_lines(text, cast, outcomes)
}

fn put_outcome_lines(text: &mut String, cast: Cast, outcomes: &[Outcome]) -> Result<(), Want>
    requires { actors_of cast ≤ 26 }
    ensures { OnOk result (string_bytes text.new ≡ string_bytes text.old ++ flat_map (outcome_text cast) outcomes.now) }
{
    for outcome in outcomes {
        put_outcome(text, cast, *outcome)?;
    }
    Ok(())
}

/// Appends the line of an outcome, as `s0 3 said 17 at m1 tick 5 ended 40 entries 23 ticks 2` or `s0 3 said 17 at m1 tick 5 never`.
#[tactic(auto, unfolding(crate::specs::Texts::outcome_text))]
fn put_outcome(text: &mut String, cast: Cast, outcome: Outcome) -> Result<(), Want>
    requires { actors_of cast ≤ 26 }
    ensures { OnOk result (string_bytes text.new ≡ string_bytes text.old ++ outcome_text cast outcome) }
{
    put_outcome_head(text, cast, outcome)?;
    put_delay(text, outcome.delay)
}

#[tactic(auto, unfolding(crate::specs::Texts::outcome_head))]
fn put_outcome_head(text: &mut String, cast: Cast, outcome: Outcome) -> Result<(), Want>
    requires { actors_of cast ≤ 26 }
    ensures { OnOk result (string_bytes text.new ≡ string_bytes text.old ++ outcome_head cast outcome) }
{
    let tick = outcome.tick;
    put_name(text, cast, outcome.name, outcome.said)?;
    text.push_str(" at ")?;
    put_actor(text, cast, outcome.actor)?;
    write!(text, " tick {tick}")?;
    Ok(())
}

fn put_delay(text: &mut String, delay: Option<Delay>) -> Result<(), Want>
    ensures { OnOk result (string_bytes text.new ≡ string_bytes text.old ++ delay_text delay) }
{
    match delay {
        None => text.push_str(" never\n")?,
        Some(
            Delay {
                stamp,
                entries,
                ticks,
            },
        ) => write!(text, " ended {stamp} entries {entries} ticks {ticks}\n")?,
    }
    Ok(())
}
