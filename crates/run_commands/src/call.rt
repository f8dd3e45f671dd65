//! The call that runs the commands.
ghost use Rattle.std.specs.Prelude.{map, string_bytes};
ghost use Rattle.command_ends.specs.Calls.{call_of};
ghost use Rattle.command_ends.specs.Ended.{sink_of};
ghost use Rattle.run_commands.specs.Keeps.{KeepsCommands};

use crate::program::Program;
use crate::runs::Runs;
use command_ends::call::end_call;
use outside::{Files, Sink};
use std::alloc::Global;

/// Runs the command that the words are, puts its text to `out` and the line of a refusal to `err`, and gives the status: 0 for
/// the whole text, 2 for other words, 3 for a file, 4 for a scenario that is refused, 5 for a script, for words or for a
/// history or for parts, 6 for the output, 7 for want of memory, 8 for a signature that isn't one, 9 where the files were read
/// and there is nothing to print.
pub fn run_command<R: Runs + Drop, F: Files, O: Sink, E: Sink>(
    alloc: Global,
    program: &Program<R>,
    words: &[String],
    files: &mut F,
    out: &mut O,
    err: &mut E,
) -> u8
    requires { R.ready program.now.runs }
    ensures { KeepsCommands R.readers
        (call_of (map string_bytes words.now) (F.held files.old) (F.faults files.old) (F.faults files.new) (O.faults out.old) (O.faults out.new) (O.told out.old) (O.told out.new))
        (sink_of (E.faults err.old) (E.faults err.new) (E.told err.old) (E.told err.new))
        result }
{
    program.runs.keep_rules();
    end_call(alloc, program, words, files, out, err)
}
