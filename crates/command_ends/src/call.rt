//! A call of the program: its words make a text, which is put.
ghost use Rattle.std.specs.Prelude.{◌≡◌, map, string_bytes};
ghost use Rattle.command_ends.specs.Calls.{call_of, CauseOf, PutsInMemory, FaultsOfFiles, FaultsOfOut};
ghost use Rattle.command_ends.specs.Loaded.{PutCause};
ghost use Rattle.command_ends.specs.Ended.{sink_of, Ends};

use crate::output::put_text;
use crate::refusal::Refusal;
use crate::report::report;
use outside::{Files, PutAnswer, Sink};
use std::alloc::Global;

/// Commands, each of which loads files in turn and makes a text of them.
pub trait Commands {
    ghost use Rattle.std.specs.Prelude.{ℕ, List, [], map, string_bytes};
    ghost use Rattle.command_ends.specs.Steps.{Step};
    ghost use Rattle.command_ends.specs.Calls.{TextCause, FaultsOfFiles};

    // Which step comes next, for the words and after the contents of the files loaded so far.
    ghost next: { List (List ℕ) → List (List ℕ) → Step → Type 0 };

    // What has to hold of the commands themselves: of some that run in threads, that threads may share what they hold.
    ghost ready: { Self → Type 0 };

    /// The whole text of the command that the words are, or why there is none.
    fn text<F: Files>(
        &self,
        alloc: Global,
        words: &[String],
        files: &mut F,
    ) -> Result<Vec<u8>, Refusal>
        requires { ready self.now }
        ensures file_faults { FaultsOfFiles result (F.faults files.old) (F.faults files.new) }
        ensures cause { TextCause (next (map string_bytes words.now)) (F.held files.old) (F.faults files.old) (F.faults files.new) [] result };
}

/// Runs the command that the words are, puts its text to `out` and the line of a refusal to `err`, and gives the status: 0 for
/// the whole text, 2 for other words, 3 for a file, 4 for a scenario that is refused, 5 for a script, for words or for a
/// history or for parts, 6 for the output, 7 for want of memory, 8 for a signature that isn't one, 9 where the files were read
/// and there is nothing to print.
pub fn end_call<C: Commands, F: Files, O: Sink, E: Sink>(
    alloc: Global,
    commands: &C,
    words: &[String],
    files: &mut F,
    out: &mut O,
    err: &mut E,
) -> u8
    requires { C.ready commands.now }
    ensures { Ends C.next
        (call_of (map string_bytes words.now) (F.held files.old) (F.faults files.old) (F.faults files.new) (O.faults out.old) (O.faults out.new) (O.told out.old) (O.told out.new))
        (sink_of (E.faults err.old) (E.faults err.new) (E.told err.old) (E.told err.new))
        result }
{
    match run(alloc, commands, words, files, out) {
        Ok(()) => 0,
        Err(refusal) => report(alloc, &refusal, err),
    }
}

fn run<C: Commands, F: Files, O: Sink>(
    alloc: Global,
    commands: &C,
    words: &[String],
    files: &mut F,
    out: &mut O,
) -> Result<(), Refusal>
    requires { C.ready commands.now }
    ensures cause { CauseOf C.next (call_of (map string_bytes words.now) (F.held files.old) (F.faults files.old) (F.faults files.new) (O.faults out.old) (O.faults out.new) (O.told out.old) (O.told out.new)) result }
    ensures memory { PutsInMemory C.next (call_of (map string_bytes words.now) (F.held files.old) (F.faults files.old) (F.faults files.new) (O.faults out.old) (O.faults out.new) (O.told out.old) (O.told out.new)) result }
    ensures file_faults { FaultsOfFiles result (F.faults files.old) (F.faults files.new) }
    ensures out_faults { FaultsOfOut result (O.faults out.old) (O.faults out.new) }
{
    match commands.text(alloc, words, files) {
        Ok(text) => put(text.as_slice(), out),
        Err(refusal) => Err(refusal),
    }
}

fn put<O: Sink>(text: &[u8], out: &mut O) -> Result<(), Refusal>
    ensures out_faults { FaultsOfOut result (O.faults out.old) (O.faults out.new) }
    ensures cause { PutCause (O.faults out.old) (O.faults out.new) (O.told out.old) (O.told out.new) text.now result }
{
    match put_text(text, out) {
        Ok(()) => Ok(()),
        Err(PutAnswer::Failed) => Err(Refusal::Output),
        Err(PutAnswer::Want) => Err(Refusal::Memory),
    }
}
