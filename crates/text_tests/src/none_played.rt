use command_ends::{LineFault, NoAnswer, Refusal};
use plain_lists::Bytes;
use run_commands::{Question, Runs};
use scenario_file::Scenario;
use script_lines::{Script, Words};
use std::alloc::Global;

/// Plays that stop at their first line, runs and merges without memory, histories that are none, and parts of no text.
#[derive(Drop)]
pub struct Unplayed;

impl Runs for Unplayed {
    ghost use Rattle.std.specs.Prelude.{⊤};
    ghost use Rattle.text_tests.specs.Unplayed.{unplayed};

    ghost readers = { unplayed };

    ghost ready = { λ _. ⊤ };

    fn play_text(
        &self,
        _alloc: Global,
        _scenario: &Scenario,
        _script: &Script,
        _words: &Words,
    ) -> Result<Vec<u8>, Refusal> {
        Err(Refusal::Script {
            fault: LineFault::NoFrame,
            line: 1,
        })
    }

    fn run_text(
        &self,
        _alloc: Global,
        _scenario: &Scenario,
        _script: &Script,
        _words: &Words,
        _hands: u32,
        _turns: u32,
    ) -> Result<Vec<u8>, Refusal> {
        Err(Refusal::Memory)
    }

    fn replay_text(
        &self,
        _alloc: Global,
        _scenario: &Scenario,
        _text: &[u8],
    ) -> Result<Vec<u8>, Refusal> {
        Err(Refusal::History {
            fault: LineFault::BadLine,
            number: 1,
        })
    }

    fn merge_text(
        &self,
        _alloc: Global,
        _scenario: &Scenario,
        _names: &[&str],
        _kept: &[Bytes],
    ) -> Result<Vec<u8>, Refusal> {
        Err(Refusal::Memory)
    }

    fn answer_text(
        &self,
        _alloc: Global,
        _scenario: &Scenario,
        _text: &[u8],
        _question: Question,
    ) -> Result<Vec<u8>, Refusal> {
        Err(Refusal::History {
            fault: LineFault::BadLine,
            number: 1,
        })
    }

    fn rebuilt_text(
        &self,
        _alloc: Global,
        _scenario: &Scenario,
        _pieces: &[u8],
    ) -> Result<Vec<u8>, Refusal> {
        Err(Refusal::NoAnswer {
            why: NoAnswer::NoText,
        })
    }

    fn keep_rules(&self) {}
}
