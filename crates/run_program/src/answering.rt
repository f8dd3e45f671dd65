//! Answers to what is asked over the history of a printed text.
ghost use Rattle.std.specs.Prelude.{◌<◌, ◌^◌, length};
ghost use Rattle.world_history.specs.Benches.{AreBenches};
ghost use Rattle.history_rules.specs.Legal.{IsLegal};
ghost use Rattle.run_commands.specs.Readers.{AnswerGives, RebuildGives};
ghost use Rattle.scenario_file.specs.Reading.{contents};
ghost use Rattle.scenario_file.specs.Valid.{IsScenario};
ghost use Rattle.run_program.specs.Asked.{Answers};
ghost use Rattle.run_program.specs.Whole.{program_readers};
ghost use Rattle.world_rules.specs.Scenarios.{setup_of};

use crate::faults::{
    history_refusal, parts_refusal, picture_refusal, request_refusal, trend_refusal,
};
use command_ends::Refusal;
use history_picture::{delays_chart, history_picture, point_plot};
use part_lines::rebuilt_text;
use plain_lists::Want;
use printed_history::{Replay, read_replay};
use run_commands::Question;
use run_page::history_page;
use run_questions::blame::blame_text;
use run_questions::delays::delays_text;
use run_questions::parts::parts_text;
use run_questions::trend::trend_text;
use scenario_file::Scenario;
use std::alloc::Global;

/// The answer to a question over the history that a printed text tells, or why there is none. Its actors do what it says once.
pub(crate) fn answered_text(
    alloc: Global,
    scenario: &Scenario,
    text: &[u8],
    question: Question,
) -> Result<Vec<u8>, Refusal>
    requires { IsScenario (contents scenario.now) }
    ensures { AnswerGives program_readers (contents scenario.now) text.now question result }
{
    match read_replay(alloc, scenario, text) {
        Ok(replay) => answer(alloc, scenario, &replay, question),
        Err(refusal) => Err(history_refusal(refusal)),
    }
}

fn answer(
    alloc: Global,
    scenario: &Scenario,
    replay: &Replay,
    question: Question,
) -> Result<Vec<u8>, Refusal>
    requires valid { IsScenario (contents scenario.now) }
    requires legal { IsLegal (setup_of (contents scenario.now)) replay.now.history }
    requires short { length replay.now.history < 2 ^ 32 }
    requires benches { AreBenches (contents scenario.now) replay.now.history replay.now.benches.items }
    ensures { Answers (contents scenario.now) replay.now.history question result }
{
    let benches = replay.benches.as_slice();
    match question {
        Question::Parts { originator, number } => {
            match parts_text(alloc, scenario, benches, originator, number) {
                Ok(text) => Ok(text),
                Err(fault) => Err(parts_refusal(fault)),
            }
        }
        Question::Blame => match blame_text(alloc, scenario, &replay.history) {
            Ok(text) => Ok(text),
            Err(Want) => Err(Refusal::Memory),
        },
        Question::Delays => match delays_text(alloc, scenario, &replay.history) {
            Ok(text) => Ok(text),
            Err(Want) => Err(Refusal::Memory),
        },
        Question::Page => match history_page(alloc, scenario, &replay.history, benches) {
            Ok(page) => Ok(page),
            Err(Want) => Err(Refusal::Memory),
        },
        Question::Picture { first, last, width } => {
            match history_picture(alloc, scenario, &replay.history, first, last, width) {
                Ok(text) => Ok(text),
                Err(fault) => Err(picture_refusal(fault)),
            }
        }
        Question::Plot { point, width } => {
            match point_plot(alloc, scenario, benches, point, width) {
                Ok(text) => Ok(text),
                Err(fault) => Err(picture_refusal(fault)),
            }
        }
        Question::Chart { width } => {
            match delays_chart(alloc, scenario, &replay.history, width) {
                Ok(text) => Ok(text),
                Err(Want) => Err(Refusal::Memory),
            }
        }
        Question::Trend { point, first, last } => {
            match trend_text(
                alloc,
                scenario,
                benches,
                point,
                u64::from(first),
                u64::from(last),
            ) {
                Ok(text) => Ok(text),
                Err(fault) => Err(trend_refusal(fault)),
            }
        }
    }
}

/// The text of the request that lines of parts rebuild, or why there is none.
pub(crate) fn request_text(
    alloc: Global,
    scenario: &Scenario,
    pieces: &[u8],
) -> Result<Vec<u8>, Refusal>
    requires { IsScenario (contents scenario.now) }
    ensures { RebuildGives program_readers (contents scenario.now) pieces.now result }
{
    match rebuilt_text(alloc, scenario, pieces) {
        Ok(text) => Ok(text),
        Err(fault) => Err(request_refusal(fault)),
    }
}
