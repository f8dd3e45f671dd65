//! The text of a point's changes among a history's executions.
ghost use Rattle.std.specs.Prelude.{◌≡◌, List};
ghost use Rattle.world_history.specs.Benches.{AreBenches};
ghost use Rattle.history_rules.specs.Events.{Entry};
ghost use Rattle.scenario_file.specs.Reading.{contents};
ghost use Rattle.scenario_file.specs.Valid.{IsScenario};
ghost use Rattle.trend_archive.specs.Boards.{shown};
ghost use Rattle.run_questions.specs.TrendAnswers.{Gives, printed, trend_in};

use crate::trend::counting::executed_by_more;
use crate::trend::fault::TrendRefusal;
use crate::trend::question::Question;
use crate::trend::text::changes_text;
use crate::trend::votes::board_of;
use scenario_file::Scenario;
use std::alloc::Global;
use trend_archive::{TrendBoard, refusal};
use world_history::Bench;

/// A point's changes by the executed updates number `first` to `last`, as more than f correct masters of a history answer them
/// alike: a line `trend POINT FIRST LAST changes COUNT`, and a line `NUMBER VALUE` for each. Nothing is replayed: the benches
/// are those of the history's actors, whatever words intruded masters signed outside it.
pub fn trend_text(
    alloc: Global,
    scenario: &Scenario,
    benches: &[Bench],
    point: u32,
    first: u64,
    last: u64,
) -> Result<Vec<u8>, TrendRefusal>
    requires valid { IsScenario (contents scenario.now) }
    requires benches { (history : List Entry) × AreBenches (contents scenario.now) history benches.now }
    ensures { (history : List Entry) → AreBenches (contents scenario.now) history benches.now → Gives (trend_in (contents scenario.now) history point first last) result }
{
    let executed = executed_by_more(alloc, scenario, benches)?;
    let points = scenario.plant.points.len();
    if let Some(answer) = refusal(points, executed, point, first, last) {
        return Err(TrendRefusal::from(answer));
    }
    let question = Question { point, first, last };
    let board = board_of(alloc, scenario, benches, question)?;
    shown_text(alloc, &board)
}

/// The text of the answer that a board shows.
fn shown_text(alloc: Global, board: &TrendBoard) -> Result<Vec<u8>, TrendRefusal>
    ensures { Gives (printed (shown board.now.n board.now.f board.now.votes)) result }
{
    match board.shown() {
        Some(changes) => Ok(changes_text(alloc, changes)?),
        None => Err(TrendRefusal::NoMatch),
    }
}
