//! The answers of the correct masters, and a board that has them.
ghost use Rattle.std.specs.Prelude.{◌≡◌, ◌<◌, ◌++◌, ℕ, None, All, length, IfOk, IfErr, IfSome, OnOk, option_copied, option_to_list};
ghost use Rattle.std.specs.List.{filter_map};
ghost use Rattle.master_points.specs.Orders.{IsPlant};
ghost use Rattle.scenario_file.specs.Reading.{contents};
ghost use Rattle.trend_archive.specs.declared.answer.TrendAnswer.TheVariants.{Want as WantAnswer};
ghost use Rattle.trend_archive.specs.Trends.{IsTrend, changes, refusal};
ghost use Rattle.world_history.specs.State.{executed_if};
ghost use Rattle.run_questions.specs.TrendAnswers.{vote_at_end, vote_of};

use crate::trend::question::Question;
use history_audit::Executes;
use master_points::Plant;
use message_types::Update;
use plain_lists::Want;
use scenario_file::Scenario;
use std::alloc::Global;
use trend_archive::{Changes, Trend, TrendAnswer, TrendBoard};
use world_history::Bench;

/// A board with the answers of the correct masters that executed up to the last number, in the order of the benches.
pub(crate) fn board_of(
    alloc: Global,
    scenario: &Scenario,
    benches: &[Bench],
    question: Question,
) -> Result<TrendBoard, TrendAnswer>
    requires plant { IsPlant scenario.now.plant scenario.now.screens }
    requires worlds { All (λ b. b.world ≡ contents scenario.now) benches.now }
    requires answered { (count : ℕ) × (refusal (length scenario.now.plant.points) count question.point question.first question.last ≡ None) }
    ensures board { IfOk result (λ board. board ≡ record { n = scenario.now.sizes.n; f = scenario.now.sizes.f; votes = filter_map (vote_of (contents scenario.now) question.point question.first question.last) benches.now }) }
    ensures want { IfErr result (λ answer. answer ≡ WantAnswer) }
{
    let mut board = TrendBoard::make(alloc, scenario.sizes);
    for bench in benches {
        let executed = Executes::executions(bench);
        ask(
            alloc,
            scenario,
            &mut board,
            bench.actor(),
            executed,
            question,
        )?;
    }
    Ok(board)
}

/// Asks an actor that executed up to the last number, and no other.
fn ask(
    alloc: Global,
    scenario: &Scenario,
    board: &mut TrendBoard,
    actor: u32,
    executed: Option<&[Update]>,
    question: Question,
) -> Result<(), TrendAnswer>
    requires plant { IsPlant scenario.now.plant scenario.now.screens }
    requires master { IfSome (option_copied executed) (λ us. actor < board.old.n) }
    requires answered { (count : ℕ) × (refusal (length scenario.now.plant.points) count question.point question.first question.last ≡ None) }
    ensures board { OnOk result (board.new ≡ record board.old { votes = board.old.votes ++ option_to_list (vote_at_end (contents scenario.now) question.point question.first question.last actor (option_copied executed.entry)) }) }
    ensures want { IfErr result (λ answer. answer ≡ WantAnswer) }
{
    match executed {
        Some(updates) if question.last <= updates.len() as u64 => {
            let changes = changes_of(alloc, &scenario.plant, updates, question)?;
            board.take(actor, &changes)?;
            Ok(())
        }
        _ => Ok(()),
    }
}

/// What a master answers that executed these updates.
fn changes_of(
    alloc: Global,
    plant: &Plant,
    executed: &[Update],
    question: Question,
) -> Result<Changes, TrendAnswer>
    requires plant { (screens : ℕ) × IsPlant plant.now screens }
    requires answered { refusal (length plant.now.points) (length executed.now) question.point question.first question.last ≡ None }
    ensures found { IfOk result (λ found. (screens : ℕ) → found ≡ record { point = question.point; first = question.first; last = question.last; items = changes plant.now screens question.point question.first question.last executed.now }) }
    ensures want { IfErr result (λ answer. answer ≡ WantAnswer) }
{
    let trend = trend_of(alloc, plant, executed)?;
    trend.changes(question.point, question.first, question.last)
}

/// The trend of a plant after executed updates.
fn trend_of(alloc: Global, plant: &Plant, executed: &[Update]) -> Result<Trend, Want>
    requires { (screens : ℕ) × IsPlant plant.now screens }
    ensures { IfOk result (λ trend. (screens : ℕ) → IsTrend plant.now screens executed.now trend) }
{
    let mut trend = Trend::make(alloc, plant)?;
    for update in executed {
        trend.apply(update)?;
    }
    Ok(trend)
}
