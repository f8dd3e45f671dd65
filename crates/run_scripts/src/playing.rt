//! A play at work.
ghost use Rattle.std.specs.Prelude.{◌≡◌, List, true, replicate, IfOk};
ghost use Rattle.scenario_file.specs.Reading.{contents};
ghost use Rattle.scenario_file.specs.Valid.{IsScenario};
ghost use Rattle.script_laws.specs.Accepted.{are_sayings_of};
ghost use Rattle.world_rules.specs.Scenarios.{actors_in};
ghost use Rattle.run_scripts.specs.Making.{beginning};
ghost use Rattle.script_lines.specs.declared.saying.Saying.{Saying as Said};
ghost use Rattle.run_scripts.specs.Playing.{IsWorld, given_in, IsMaking, AreNew};

use crate::mail::Mail;
use checked_frames::KeyRing;
use plain_lists::Want;
use scenario_file::Scenario;
use script_lines::Saying;
use std::alloc::Global;
use world_history::{Kept, ring_of};

/// What a play goes by from its beginning to its end.
#[derive(Drop)]
pub struct World<'a> {
    pub alloc: Global,
    pub scenario: &'a Scenario,
    /// The public keys of all actors, by which frames are checked that intruded masters make.
    pub ring: KeyRing,
    pub words: &'a [Saying],
}

/// The actors with their keepers, and the frames between them.
pub struct Playing {
    pub kept: Vec<Kept>,
    /// How many entries all actors have.
    pub entries: u64,
    pub mail: Mail,
    /// The actors that nothing comes to or from.
    pub lost: Vec<u32>,
    /// For each actor, from where in the list of words its next one is looked for.
    pub said: Vec<usize>,
}

// Taken apart here once, so that no crate above proves it again.
impl Drop for Playing {
    fn drop(self) {
        let Playing {
            kept: _,
            entries: _,
            mail: _,
            lost: _,
            said: _,
        } = self;
    }
}

impl<'a> World<'a> {
    pub(crate) fn of(
        alloc: Global,
        scenario: &'a Scenario,
        words: &'a [Saying],
    ) -> Result<World<'a>, Want>
        requires valid { IsScenario (contents scenario.now) }
        requires words { are_sayings_of (contents scenario.now) words.now ≡ true }
        ensures world { IfOk result (λ world. IsWorld world) }
        ensures given { IfOk result (λ world. given_in world ≡ record { scenario = contents scenario.now; sayings = words.now }) }
    {
        Ok(World {
            alloc,
            scenario,
            ring: ring_of(alloc, scenario)?,
            words,
        })
    }
}

fn all_kept(alloc: Global, scenario: &Scenario, actors: u32) -> Result<Vec<Kept>, Want>
    requires valid { IsScenario (contents scenario.now) }
    requires actors { actors ≡ actors_in (contents scenario.now) }
    ensures { IfOk result (λ kept. AreNew (contents scenario.now) kept.items) }
{
    let mut kept = Vec::with_capacity(alloc, actors as usize)?;
    for actor in 0..actors {
        kept.push(Kept::make(alloc, scenario, actor)?)?;
    }
    Ok(kept)
}

fn none_said(alloc: Global, actors: u32) -> Result<Vec<usize>, Want>
    ensures { IfOk result (λ said. said.items ≡ replicate actors 0) }
{
    let mut said = Vec::with_capacity(alloc, actors as usize)?;
    for _actor in 0..actors {
        said.push(0)?;
    }
    Ok(said)
}

impl Playing {
    /// The actors of a scenario before their first events.
    pub(crate) fn begin(alloc: Global, scenario: &Scenario) -> Result<Playing, Want>
        requires { IsScenario (contents scenario.now) }
        ensures { IfOk result (λ playing. (sayings : List Said) → IsMaking (record { scenario = contents scenario.now; sayings = sayings }) beginning playing) }
    {
        let actors = scenario.cast().actors();
        Ok(Playing {
            kept: all_kept(alloc, scenario, actors)?,
            entries: 0,
            mail: Mail::make(alloc, actors)?,
            lost: Vec::new(alloc),
            said: none_said(alloc, actors)?,
        })
    }
    /// The actors as they are after what was played.
    pub(crate) fn into_kept(self) -> Vec<Kept>
        ensures { result.items ≡ self.kept.items }
    {
        let Playing {
            kept,
            entries: _,
            mail: _,
            lost: _,
            said: _,
        } = self;
        kept
    }
}
