use crate::answering::{answered_text, request_text};
use crate::merged::merged_text;
use crate::played::played_text;
use crate::replayed::replayed_text;
use crate::threaded::run_text;
use command_ends::Refusal;
use plain_lists::{Bytes, Want};
use printed_laws::played_is_told;
use replica_threads::laws::runs_are_legal;
use run_commands::{Question, Runs};
use run_laws::laws::runs_exist;
use run_scripts::laws::{played_is_legal, played_is_unforged};
use scenario_file::Scenario;
use script_laws::laws::{read_lines_are_of_scenario, read_words_are_of_scenario};
use script_lines::{Script, Words};
use std::alloc::Global;
use std::sync::Wait;
use std::thread::Threads;

/// Plays, runs in these threads, replays and merges of whole runs, and what is asked over them.
#[derive(Drop)]
pub struct ProgramRuns<'a, R: Threads + Wait + Sync> {
    pub rt: &'a R,
}

impl<R: Threads + Wait + Sync> Runs for ProgramRuns<'_, R> {
    ghost use denote.Param.Send.{IsSync};
    ghost use Rattle.run_program.specs.Whole.{program_readers};

    ghost readers = { program_readers };

    ghost ready = { λ _. IsSync R.row };

    fn play_text(
        &self,
        alloc: Global,
        scenario: &Scenario,
        script: &Script,
        words: &Words,
    ) -> Result<Vec<u8>, Refusal> {
        read_lines_are_of_scenario();
        read_words_are_of_scenario();
        played_text(alloc, scenario, script, words)
    }

    fn run_text(
        &self,
        alloc: Global,
        scenario: &Scenario,
        script: &Script,
        words: &Words,
        hands: u32,
        turns: u32,
    ) -> Result<Vec<u8>, Refusal> {
        read_lines_are_of_scenario();
        read_words_are_of_scenario();
        match run_text(
            alloc,
            self.rt,
            scenario,
            script,
            words,
            hands,
            u64::from(turns),
        ) {
            Ok(text) => Ok(text),
            Err(Want) => Err(Refusal::Memory),
        }
    }

    fn replay_text(
        &self,
        alloc: Global,
        scenario: &Scenario,
        text: &[u8],
    ) -> Result<Vec<u8>, Refusal> {
        replayed_text(alloc, scenario, text)
    }

    fn merge_text(
        &self,
        alloc: Global,
        scenario: &Scenario,
        names: &[&str],
        kept: &[Bytes],
    ) -> Result<Vec<u8>, Refusal> {
        merged_text(alloc, scenario, names, kept)
    }

    fn answer_text(
        &self,
        alloc: Global,
        scenario: &Scenario,
        text: &[u8],
        question: Question,
    ) -> Result<Vec<u8>, Refusal> {
        answered_text(alloc, scenario, text, question)
    }

    fn rebuilt_text(
        &self,
        alloc: Global,
        scenario: &Scenario,
        pieces: &[u8],
    ) -> Result<Vec<u8>, Refusal> {
        request_text(alloc, scenario, pieces)
    }

    fn keep_rules(&self) {
        read_lines_are_of_scenario();
        read_words_are_of_scenario();
        played_is_legal();
        played_is_unforged();
        played_is_told();
        runs_are_legal();
        runs_exist();
    }
}
