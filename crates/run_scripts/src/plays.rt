//! Plays from their beginning to their end.
ghost use Rattle.std.specs.Prelude.{◌≡◌, true, IfOk, Ok};
ghost use Rattle.std.specs.List.{list_all};
ghost use Rattle.scenario_file.specs.Reading.{contents};
ghost use Rattle.scenario_file.specs.Valid.{IsScenario};
ghost use Rattle.script_laws.specs.Accepted.{is_step_of, are_lines_of, are_sayings_of};
ghost use Rattle.run_scripts.specs.Making.{Given, Making, beginning, goes, played, played_from};
ghost use Rattle.run_scripts.specs.Playing.{IsWorld, given_in, IsMaking, IsPlaying, GoesAt, Plays, ArePlayed, PlaysTo};

use crate::answer::PlayAnswer;
use crate::playing::{Playing, World};
use crate::steps::goes;
use scenario_file::Scenario;
use script_lines::{Line, Script, Words};
use std::alloc::Global;
use world_history::Kept;

/// What a line does, or the answer of a play that stops at it.
fn play_line(world: &World<'_>, playing: &mut Playing, line: &Line) -> Result<(), PlayAnswer>
    requires world { IsWorld world.now }
    requires playing { IsPlaying (given_in world.now) playing.old }
    requires accepted { is_step_of (contents world.now.scenario.now) line.now.step ≡ true }
    ensures { (m : Making) → IsMaking (given_in world.now) m playing.old
        → GoesAt (given_in world.now) line.now.number result (goes (given_in world.now) line.now.step m) playing.new }
{
    match goes(world, playing, line.step) {
        Ok(()) => Ok(()),
        Err(stop) => Err(stop.at(line.number)),
    }
}

fn play_lines(world: &World<'_>, playing: &mut Playing, lines: &[Line]) -> Result<(), PlayAnswer>
    requires world { IsWorld world.now }
    requires playing { IsPlaying (given_in world.now) playing.old }
    requires accepted { are_lines_of (contents world.now.scenario.now) lines.now ≡ true }
    ensures { (m : Making) → IsMaking (given_in world.now) m playing.old
        → Plays (PlaysTo (given_in world.now) playing.new) result (played_from (given_in world.now) lines.now m) }
{
    for line in lines {
        play_line(world, playing, line)?;
    }
    Ok(())
}

/// Plays a script of a scenario with these words of its intruded masters: one actor for each of the scenario's, in order, each
/// with its own entries of the one history that is so defined. It stops with `NoFrame` at a line that names a frame, or cries
/// for a word, that isn't there, and with `TooMany` at one that asks for entry 50,001.
#[tactic(auto, unfolding(crate::specs::Making::played))]
pub fn play(
    alloc: Global,
    scenario: &Scenario,
    script: &Script,
    words: &Words,
) -> Result<Vec<Kept>, PlayAnswer>
    requires valid { IsScenario (contents scenario.now) }
    requires lines { are_lines_of (contents scenario.now) script.now ≡ true }
    requires words { are_sayings_of (contents scenario.now) words.now ≡ true }
    ensures { Plays (λ kept history. ArePlayed (record { scenario = contents scenario.now; sayings = words.now }) history kept.items) result
        (played (record { scenario = contents scenario.now; sayings = words.now }) script.now) }
{
    let world = World::of(alloc, scenario, words.sayings())?;
    let mut playing = Playing::begin(alloc, scenario)?;
    play_lines(&world, &mut playing, script.lines())?;
    Ok(playing.into_kept())
}
