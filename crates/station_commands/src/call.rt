//! The call of the command.
ghost use Rattle.std.specs.Prelude.{◌≡◌, map, string_bytes};
ghost use Rattle.scenario_file.specs.Reading.{contents};
ghost use Rattle.scenario_file.specs.Valid.{IsScenario};
ghost use Rattle.command_ends.specs.Ended.{sink_of};
ghost use Rattle.station_words.specs.Wanted.{wanted};
ghost use Rattle.station_commands.specs.Lives.{reach_of};
ghost use Rattle.station_commands.specs.Courses.{InScenario, Course, StationEnds, shelf_of, words_refusal};

use crate::holding::open_keys;
use crate::keep::Keep;
use crate::life::live_kept;
use crate::opening::{find_actor, open_scenario};
use crate::refusal::StationRefusal;
use crate::report::report;
use command_ends::Refusal;
use command_words::WordsAnswer;
use outside::{Files, Sink};
use scenario_file::Scenario;
use station_files::Lines;
use station_words::{StationWords, read_station};
use std::alloc::Global;

/// Lives the life of the actor that the words name until the input ends: `station SCENARIO ACTOR KEEP`, or with RING KEY behind, which
/// hold the ring of all public keys and the actor's own key: then the scenario has no seed. What it does is kept in the file KEEP, and
/// no word is put to `out` that isn't kept. That file is touched only once words, scenario, actor and the files of keys are found
/// right. Gives the status, and puts the line of a refusal to `err`: 0 where the input ended, 2 for other words, or where ACTOR is no
/// correct actor, 3 for a file, be it one that another process has, 4 for a scenario that is refused, 5 for a file that isn't what
/// the actor kept, or for keys that aren't a ring or the actor's, 6 for the output, 7 for want of memory, 10 where nothing more could
/// be kept, 11 for the input.
pub fn station<F: Files, K: Keep, L: Lines, O: Sink, E: Sink>(
    alloc: Global,
    words: &[String],
    files: &mut F,
    keep: &mut K,
    lines: &mut L,
    out: &mut O,
    err: &mut E,
) -> u8
    ensures { StationEnds (keep.new ≡ keep.old)
        (map string_bytes words.now) (shelf_of (F.held files.old) (F.faults files.old) (F.faults files.new))
        (reach_of (K.lies keep.old) (K.held keep.new) (K.faults keep.old) (K.faults keep.new) (L.waiting lines.old) (L.faults lines.old) (L.faults lines.new) (O.told out.old) (O.told out.new) (O.faults out.old) (O.faults out.new))
        (sink_of (E.faults err.old) (E.faults err.new) (E.told err.old) (E.told err.new))
        result }
{
    match live_as_asked(alloc, words, files, keep, lines, out) {
        Ok(()) => 0,
        Err(refusal) => report(alloc, &refusal, err),
    }
}

fn live_as_asked<F: Files, K: Keep, L: Lines, O: Sink>(
    alloc: Global,
    words: &[String],
    files: &mut F,
    keep: &mut K,
    lines: &mut L,
    out: &mut O,
) -> Result<(), StationRefusal>
    ensures { Course (keep.new ≡ keep.old)
        (map string_bytes words.now) (shelf_of (F.held files.old) (F.faults files.old) (F.faults files.new))
        (reach_of (K.lies keep.old) (K.held keep.new) (K.faults keep.old) (K.faults keep.new) (L.waiting lines.old) (L.faults lines.old) (L.faults lines.new) (O.told out.old) (O.told out.new) (O.faults out.old) (O.faults out.new))
        result }
{
    let asked = match read_station(alloc, words) {
        Ok(asked) => asked,
        Err(answer) => return Err(StationRefusal::Known(words_refusal(answer))),
    };
    match open_scenario(alloc, asked.scenario, asked.keys, files) {
        Ok(scenario) => live_in(alloc, &scenario, &asked, files, keep, lines, out),
        Err(refusal) => Err(StationRefusal::Known(refusal)),
    }
}

fn words_refusal(answer: WordsAnswer) -> Refusal
    ensures { result ≡ words_refusal answer }
{
    match answer {
        WordsAnswer::Usage => Refusal::Usage,
        WordsAnswer::Want => Refusal::Memory,
    }
}

fn live_in<F: Files, K: Keep, L: Lines, O: Sink>(
    alloc: Global,
    scenario: &Scenario,
    asked: &StationWords<'_>,
    files: &mut F,
    keep: &mut K,
    lines: &mut L,
    out: &mut O,
) -> Result<(), StationRefusal>
    requires { IsScenario (contents scenario.now) }
    ensures { InScenario (keep.new ≡ keep.old) (contents scenario.now) (wanted asked.now) (shelf_of (F.held files.old) (F.faults files.old) (F.faults files.new))
        (reach_of (K.lies keep.old) (K.held keep.new) (K.faults keep.old) (K.faults keep.new) (L.waiting lines.old) (L.faults lines.old) (L.faults lines.new) (O.told out.old) (O.told out.new) (O.faults out.old) (O.faults out.new))
        result }
{
    let actor = match find_actor(alloc, scenario, asked.actor) {
        Ok(actor) => actor,
        Err(refusal) => return Err(StationRefusal::Known(refusal)),
    };
    match open_keys(alloc, scenario, asked.actor, asked.keys, files) {
        Ok(keys) => live_kept(
            alloc,
            scenario,
            keys.as_ref(),
            actor,
            asked.keep,
            keep,
            lines,
            out,
        ),
        Err(refusal) => Err(refusal),
    }
}
