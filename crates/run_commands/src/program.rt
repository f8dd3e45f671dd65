ghost use Rattle.std.specs.Prelude.{◌≡◌, ℕ, List, [], None};
ghost use Rattle.command_words.specs.Wanted.{wanted};
ghost use Rattle.command_ends.specs.Calls.{TextCause, FaultsOfFiles};
ghost use Rattle.run_commands.specs.Posed.{posed};
ghost use Rattle.run_commands.specs.Told.{ToldStep, ToldNext};

use crate::answering::{answer, rebuild};
use crate::made::make;
use crate::merged::merge;
use crate::questions::posed;
use crate::runs::Runs;
use crate::scripted::{key, keys, play, replay};
use crate::threaded::{RunWords, run};
use crate::verifying::verify;
use command_ends::Refusal;
use command_ends::call::Commands;
use command_words::{Asked, WordsAnswer, read_words};
use outside::Files;
use std::alloc::Global;

/// The program's commands, over plays, runs in threads, replays, merges and what is asked over them.
#[derive(Drop)]
pub struct Program<R: Runs + Drop> {
    pub runs: R,
}

impl<R: Runs + Drop> Commands for Program<R> {
    ghost next = { ToldNext R.readers };

    ghost ready = { λ program. R.ready program.runs };

    fn text<F: Files>(
        &self,
        alloc: Global,
        words: &[String],
        files: &mut F,
    ) -> Result<Vec<u8>, Refusal> {
        match read_words(alloc, words) {
            Ok(asked) => command_text(alloc, &self.runs, asked, files),
            Err(WordsAnswer::Usage) => Err(Refusal::Usage),
            Err(WordsAnswer::Want) => Err(Refusal::Memory),
        }
    }
}

/// The text of a command.
fn command_text<R: Runs, F: Files>(
    alloc: Global,
    runs: &R,
    asked: Asked<'_>,
    files: &mut F,
) -> Result<Vec<u8>, Refusal>
    requires { R.ready runs.now }
    ensures file_faults { FaultsOfFiles result (F.faults files.old) (F.faults files.new) }
    ensures cause { TextCause (ToldStep R.readers (wanted asked.entry)) (F.held files.old) (F.faults files.old) (F.faults files.new) [] result }
{
    match posed(&asked) {
        Some((scenario, history, question)) => {
            answer(alloc, runs, scenario, history, question, files)
        }
        None => unposed_text(alloc, runs, asked, files),
    }
}

// The text of a command that asks no question.
fn unposed_text<R: Runs, F: Files>(
    alloc: Global,
    runs: &R,
    asked: Asked<'_>,
    files: &mut F,
) -> Result<Vec<u8>, Refusal>
    requires ready { R.ready runs.now }
    requires none { posed (wanted asked) ≡ None }
    ensures file_faults { FaultsOfFiles result (F.faults files.old) (F.faults files.new) }
    ensures cause { TextCause (ToldStep R.readers (wanted asked.entry)) (F.held files.old) (F.faults files.old) (F.faults files.new) [] result }
{
    match asked {
        Asked::Play {
            scenario,
            script,
            words,
        } => play(alloc, runs, scenario, script, words, files),
        Asked::Replay { scenario, history } => replay(alloc, runs, scenario, history, files),
        Asked::Make { number } => make(alloc, runs, number),
        Asked::Keys { scenario } => keys(alloc, scenario, files),
        Asked::Key { scenario, actor } => key(alloc, scenario, actor, files),
        Asked::Verify {
            public,
            message,
            signature,
        } => verify(alloc, public, message, signature, files),
        Asked::Rebuild { scenario, pieces } => rebuild(alloc, runs, scenario, pieces, files),
        Asked::Run {
            scenario,
            script,
            words,
            hands,
            turns,
        } => run(
            alloc,
            runs,
            RunWords {
                scenario,
                script,
                words,
                hands,
                turns,
            },
            files,
        ),
        Asked::Merge { scenario, keeps } => merge(alloc, runs, scenario, keeps.as_slice(), files),
        _ => unreachable!(),
    }
}
