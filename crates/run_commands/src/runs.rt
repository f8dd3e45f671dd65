use crate::questions::Question;
use command_ends::Refusal;
use plain_lists::Bytes;
use scenario_file::Scenario;
use script_lines::{Script, Words};
use std::alloc::Global;

/// Plays, runs in threads, replays, merges and what is asked over them, as texts. The commands stand over this, so that their causes, ends
/// and texts are proved without any history's crate.
pub trait Runs {
    ghost use Rattle.std.specs.Prelude.{◌≡◌, ◌≤◌, length, map, true};
    ghost use Rattle.scenario_file.specs.Reading.{contents};
    ghost use Rattle.scenario_file.specs.Valid.{IsScenario};
    ghost use Rattle.command_words.specs.declared.command_line.TheConstants.{MOST_KEEPS};
    ghost use Rattle.run_commands.specs.Readers.{AreShort, Readers, KeepsRules, IsScriptOf, AreWordsOf, PlayGives, RunGives, ReplayGives, MergeGives, AnswerGives, RebuildGives, are_in_range};

    // The definitions that the texts go by.
    ghost readers: { Readers };

    // What has to hold for runs in threads: that threads may share what is held.
    ghost ready: { Self → Type 0 };

    /// The text of the play of a script and words, or the line of the script at which it stops.
    fn play_text(
        &self,
        alloc: Global,
        scenario: &Scenario,
        script: &Script,
        words: &Words,
    ) -> Result<Vec<u8>, Refusal>
        requires valid { IsScenario (contents scenario.now) }
        requires script { IsScriptOf (contents scenario.now) script.now }
        requires words { AreWordsOf (contents scenario.now) words.now }
        ensures { PlayGives readers (contents scenario.now) script.now words.now result };

    /// The text of a run in threads of a script and words: each master has so many hands (1 to 4) and each other actor one, and
    /// each makes so many turns (1 to 4,000).
    fn run_text(
        &self,
        alloc: Global,
        scenario: &Scenario,
        script: &Script,
        words: &Words,
        hands: u32,
        turns: u32,
    ) -> Result<Vec<u8>, Refusal>
        requires ready { ready self.now }
        requires valid { IsScenario (contents scenario.now) }
        requires script { IsScriptOf (contents scenario.now) script.now }
        requires words { AreWordsOf (contents scenario.now) words.now }
        requires range { are_in_range hands turns ≡ true }
        ensures { RunGives readers (contents scenario.now) script.now words.now turns result };

    /// The text of the history that a printed text spells, or why it spells none.
    fn replay_text(
        &self,
        alloc: Global,
        scenario: &Scenario,
        text: &[u8],
    ) -> Result<Vec<u8>, Refusal>
        requires { IsScenario (contents scenario.now) }
        ensures { ReplayGives readers (contents scenario.now) text.now result };

    /// The text of a history that joins what stations kept in files of these names, or why there is none.
    fn merge_text(
        &self,
        alloc: Global,
        scenario: &Scenario,
        names: &[&str],
        kept: &[Bytes],
    ) -> Result<Vec<u8>, Refusal>
        requires valid { IsScenario (contents scenario.now) }
        requires all { length kept.now ≡ length names.now }
        requires few { length kept.now ≤ MOST_KEEPS }
        requires short { AreShort kept.now }
        ensures { MergeGives readers (contents scenario.now) (map (λ name. name.now) names.now) kept.now result };

    /// The answer to a question over the history that a printed text spells, or why there is none.
    fn answer_text(
        &self,
        alloc: Global,
        scenario: &Scenario,
        text: &[u8],
        question: Question,
    ) -> Result<Vec<u8>, Refusal>
        requires { IsScenario (contents scenario.now) }
        ensures { AnswerGives readers (contents scenario.now) text.now question result };

    /// The text of the request that lines of parts rebuild, with the masters whose parts are wrong; or why there is none.
    fn rebuilt_text(
        &self,
        alloc: Global,
        scenario: &Scenario,
        pieces: &[u8],
    ) -> Result<Vec<u8>, Refusal>
        requires { IsScenario (contents scenario.now) }
        ensures { RebuildGives readers (contents scenario.now) pieces.now result };

    /// What holds of the definitions. It does nothing.
    fn keep_rules(&self)
        ensures { KeepsRules readers };
}
