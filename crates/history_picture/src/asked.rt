//! The pictures of entries and points that can be asked for.
ghost use Rattle.std.specs.Prelude.{◌≡◌, ◌<◌, ◌^◌, List, [], length, map, nat_lt, not, true, if◌then◌else◌, IfOk};
ghost use Rattle.std.specs.List.{list_all};
ghost use Rattle.scenario_file.specs.Reading.{contents};
ghost use Rattle.scenario_file.specs.Valid.{IsScenario};
ghost use Rattle.history_rules.specs.Events.{Entry as EntryOf};
ghost use Rattle.history_rules.specs.Legal.{IsLegal};
ghost use Rattle.world_rules.specs.Scenarios.{setup_of};
ghost use Rattle.world_history.specs.Benches.{AreBenches};
ghost use Rattle.world_history.specs.State.{executions_shown};
ghost use Rattle.history_picture.specs.Pictures.{Draws, drawn_in, furthest_from, picture_in, plot_in, range_of};

use crate::fault::PictureRefusal;
use crate::happened::happened_in;
use axis_pictures::{Frame, plot_of};
use lane_pictures::{Range, Sheet, drawn};
use message_types::Update;
use plain_lists::Want;
use scenario_file::Scenario;
use std::alloc::Global;
use world_entries::History;
use world_history::Bench;

/// The picture of a legal history's entries, so many pixels wide: of those from one stamp to another, of all from one on where that
/// alone is told, else of all. The history is acted once more.
pub fn history_picture(
    alloc: Global,
    scenario: &Scenario,
    history: &History,
    first: Option<u32>,
    last: Option<u32>,
    width: u32,
) -> Result<Vec<u8>, PictureRefusal>
    requires valid { IsScenario (contents scenario.now) }
    requires legal { IsLegal (setup_of (contents scenario.now)) history.now }
    requires short { length history.now < 2 ^ 32 }
    ensures { Draws (picture_in (contents scenario.now) history.now first last width) result }
{
    match range_of(history.len() as u64, first, last) {
        Ok(range) => match drawn_in(alloc, scenario, history, width, range) {
            Ok(text) => Ok(text),
            Err(Want) => Err(PictureRefusal::Want),
        },
        Err(fault) => Err(fault),
    }
}

/// The picture of a range.
#[tactic(auto, unfolding(crate::specs::Pictures::drawn_in))]
fn drawn_in(
    alloc: Global,
    scenario: &Scenario,
    history: &History,
    width: u32,
    range: Range,
) -> Result<Vec<u8>, Want>
    requires valid { IsScenario (contents scenario.now) }
    requires legal { IsLegal (setup_of (contents scenario.now)) history.now }
    requires short { length history.now < 2 ^ 32 }
    ensures { IfOk result (λ text. text.items ≡ drawn_in (contents scenario.now) history.now width range) }
{
    let happened = happened_in(alloc, scenario, history)?;
    let (lanes, marks) = (happened.lanes.as_slice(), happened.marks.as_slice());
    let sheet = Sheet::make(range.first, width, lanes.len() as u64);
    let text = drawn(alloc, scenario.cast(), sheet, range, lanes, marks)?;
    Ok(text.into_bytes())
}

/// The stamps that are asked for, of a history with so many entries.
#[tactic(auto, unfolding(crate::specs::Pictures::range_of))]
fn range_of(count: u64, first: Option<u32>, last: Option<u32>) -> Result<Range, PictureRefusal>
    ensures { result ≡ range_of count first last }
{
    let named = first.is_some() || last.is_some();
    let end = count.saturating_sub(1);
    let first = u64::from(first.unwrap_or(0));
    let last = match last {
        Some(last) => u64::from(last),
        None => first.max(end),
    };
    if last < first {
        return Err(PictureRefusal::BadRange);
    }
    if named && count <= last {
        return Err(PictureRefusal::NotReached { last: end });
    }
    Ok(Range { first, last })
}

/// A point over the executions of the correct master that executed most in a history, so many pixels wide. Nothing is replayed: the
/// benches are those of the history's actors, whatever words intruded masters signed outside it.
pub fn point_plot(
    alloc: Global,
    scenario: &Scenario,
    benches: &[Bench],
    number: u32,
    width: u32,
) -> Result<Vec<u8>, PictureRefusal>
    requires benches { (history : List EntryOf) × AreBenches (contents scenario.now) history benches.now }
    ensures { (history : List EntryOf) → AreBenches (contents scenario.now) history benches.now → Draws (plot_in (contents scenario.now) history number width) result }
{
    let Some(point) = scenario.plant.points.get(number as usize) else {
        return Err(PictureRefusal::NoPoint);
    };
    let executed = furthest(benches);
    let frame = Frame {
        width: u64::from(width),
        count: executed.len() as u64,
    };
    let alarms = scenario.plant.alarms.as_slice();
    match plot_of(alloc, frame, number, point, alarms, executed) {
        Ok(text) => Ok(text.into_bytes()),
        Err(Want) => Err(PictureRefusal::Want),
    }
}

/// The longest list of executions, the first of those.
fn furthest(benches: &[Bench]) -> &[Update]
    requires { list_all (λ b. not b.is_spent) benches.now ≡ true }
    ensures { result.now ≡ furthest_from [] (map executions_shown benches.now) }
{
    let mut best: &[Update] = &[];
    for bench in benches {
        best = further(best, bench.executions());
    }
    best
}

fn further<'a>(best: &'a [Update], other: &'a [Update]) -> &'a [Update]
    ensures { result.now ≡ (if nat_lt (length best.now) (length other.now) then other.now else best.now) }
{
    if best.len() < other.len() {
        other
    } else {
        best
    }
}
