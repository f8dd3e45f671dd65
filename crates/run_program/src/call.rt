//! The call of the program.
ghost use Rattle.std.specs.Prelude.{map, string_bytes};
ghost use Rattle.command_ends.specs.Calls.{call_of};
ghost use Rattle.command_ends.specs.Ended.{sink_of};
ghost use Rattle.run_commands.specs.Headline.{KeepsHeadline};
ghost use Rattle.run_program.specs.Keeps.{Keeps};
ghost use Rattle.run_program.specs.Whole.{program_readers};

use crate::runs::ProgramRuns;
use outside::{Files, Sink};
use page_text::laws::escaped_is_plain;
use part_lines::laws::enough_lines_rebuild;
use run_commands::Program;
use run_commands::call::run_command;
use run_questions::blame::laws::{blamed_are_proved, correct_are_not_blamed, quorums_are_blamed};
use run_questions::parts::laws::{
    certified_have_own_digests, parts_are_printed, printed_lines_rebuild,
};
use run_questions::trend::laws::{
    always_matches, prints_the_changes_of_all, prints_the_changes_of_one,
};
use std::alloc::Global;
use std::sync::Wait;
use std::thread::Threads;

/// Runs the command that the words are, `run` in threads, puts its text to `out` and the line of a refusal to `err`, and gives
/// the status: 0 for the whole text, 2 for other words, 3 for a file, 4 for a scenario that is refused, 5 for a script, for
/// words or for a history or for parts, 6 for the output, 7 for want of memory, 8 for a signature that isn't one, 9 where the
/// files were read and there is nothing to print.
pub fn spire<R: Threads + Wait + Sync, F: Files, O: Sink, E: Sink>(
    rt: &R,
    alloc: Global,
    words: &[String],
    files: &mut F,
    out: &mut O,
    err: &mut E,
) -> u8
    ensures keeps { Keeps
        (call_of (map string_bytes words.now) (F.held files.old) (F.faults files.old) (F.faults files.new) (O.faults out.old) (O.faults out.new) (O.told out.old) (O.told out.new))
        (sink_of (E.faults err.old) (E.faults err.new) (E.told err.old) (E.told err.new))
        result }
    ensures headline { KeepsHeadline program_readers
        (call_of (map string_bytes words.now) (F.held files.old) (F.faults files.old) (F.faults files.new) (O.faults out.old) (O.faults out.new) (O.told out.old) (O.told out.new))
        result }
{
    blamed_are_proved();
    quorums_are_blamed();
    correct_are_not_blamed();
    prints_the_changes_of_one();
    prints_the_changes_of_all();
    always_matches();
    parts_are_printed();
    printed_lines_rebuild();
    certified_have_own_digests();
    enough_lines_rebuild();
    escaped_is_plain();
    let program = Program {
        runs: ProgramRuns { rt },
    };
    run_command(alloc, &program, words, files, out, err)
}
