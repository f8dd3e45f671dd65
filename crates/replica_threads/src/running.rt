//! Runs from their beginning to their end.
ghost use Rattle.std.specs.Prelude.{◌≡◌, ◌≤◌, ◌+◌, false, length, map, All, IfOk};
ghost use Rattle.scenario_file.specs.Reading.{contents};
ghost use Rattle.scenario_file.specs.Valid.{IsScenario};
ghost use Rattle.world_rules.specs.Scenarios.{actors_in};
ghost use Rattle.replica_threads.specs.Ended.{HasEnded, IsRun};
ghost use Rattle.replica_threads.specs.Courses.{AreFit, IsCourse, seats_made};

use crate::course::Course;
use crate::finishing::all_finished;
use crate::handing::make_all_turns;
use crate::mailing::{crews, empty_inboxes};
use crate::seating::stations;
use crate::{Gate, Shared, ended};
use plain_lists::Want;
use play_words::Input;
use scenario_file::Scenario;
use stamps::{StampSeat, Stamps};
use station_turns::{Naming, Station};
use std::alloc::Global;
use std::marker::Brand;
use std::sync::Wait;
use std::thread::Threads;
use world_history::{Kept, ring_of};

/// The stations once their actors have made all turns: first those of the hands, and then those that an actor still lacks.
fn all_turned<N: Naming + Send + Sync, R: Threads + Wait + Sync, G: Gate + Sync>(
    rt: &R,
    course: &Course<'_>,
    stamps: &Stamps,
    gate: &G,
    stations: Vec<Station<N>>,
) -> Result<Vec<Station<N>>, Want>
    requires course { IsCourse N.name course.now }
    requires source { stamps.now ≡ N.name.source }
    requires stations { length stations.items ≡ actors_in N.name.scenario }
    ensures all { IfOk result (λ stations. length stations.items ≡ actors_in N.name.scenario) }
    ensures ended { IfOk result (λ stations. All (HasEnded N.name.turns) stations.items) }
{
    let alloc = course.alloc;
    let actors = course.actors();
    let ring = ring_of(alloc, course.scenario)?;
    let (inboxes, mut passes) = empty_inboxes(alloc, actors)?;
    let boxes = inboxes.as_slice();
    let shared = Shared {
        alloc,
        scenario: course.scenario,
        ring: &ring,
        stamps,
        inboxes: boxes,
        turns: course.turns,
    };
    let crews = crews(
        alloc,
        course.scenario.cast().masters,
        course.hands,
        boxes,
        &mut passes,
        stations,
    )?;
    let turned = make_all_turns(rt, &shared, gate, crews)?;
    all_finished(rt, &shared, turned, passes)
}

/// The run of this name, with these stamps and the seat that they came with.
fn run_named<N: Naming + Send + Sync, R: Threads + Wait + Sync, G: Gate + Sync>(
    rt: &R,
    course: &Course<'_>,
    inputs: Vec<Vec<Input>>,
    stamps: Stamps,
    mut first: StampSeat,
    gate: &G,
) -> Result<Vec<Kept>, Want>
    requires course { IsCourse N.name course.now }
    requires source { stamps ≡ N.name.source }
    requires seats { stamps.seats ≡ actors_in N.name.scenario + 1 }
    requires first { first ≡ seats_made stamps 0 }
    requires inputs { map (λ list. list.items) inputs.items ≡ N.name.inputs }
    requires fit { AreFit N.name.scenario N.name.inputs }
    ensures run { IfOk result (λ kept. IsRun N.name.scenario N.name.inputs N.name.turns (map (λ k. k.bench) kept.items)) }
    ensures works { IfOk result (λ kept. All (λ k. k.is_spent ≡ false) kept.items) }
{
    let stations = stations::<N, R>(rt, course, &stamps, &mut first, inputs)?;
    let turned = all_turned::<N, R, G>(rt, course, &stamps, gate, stations)?;
    ended(course.alloc, stamps, first, turned)
}

/// A run of threads: the actors of a scenario, in the order of their numbers, once each has made so many turns, or was halted.
/// `inputs` is what each is given from outside. A master has so many hands and each other actor one; each hand is a thread of
/// its own where one can be made, and the gate may hold it back. (No clause speaks of hands.) `Want` only where memory ran out.
pub fn run<R: Threads + Wait + Sync, G: Gate + Sync>(
    alloc: Global,
    rt: &R,
    scenario: &Scenario,
    inputs: Vec<Vec<Input>>,
    hands: u32,
    turns: u64,
    gate: &G,
) -> Result<Vec<Kept>, Want>
    requires valid { IsScenario (contents scenario.now) }
    requires fit { AreFit (contents scenario.now) (map (λ list. list.items) inputs.items) }
    requires turns { turns ≤ 4000 }
    ensures run { IfOk result (λ kept. IsRun (contents scenario.now) (map (λ list. list.items) inputs.items) turns (map (λ k. k.bench) kept.items)) }
    ensures works { IfOk result (λ kept. All (λ k. k.is_spent ≡ false) kept.items) }
{
    let course = Course {
        alloc,
        scenario,
        hands,
        turns,
    };
    let (stamps, first) = Stamps::new(alloc, course.actors() + 1)?;
    run_named::<Brand, R, G>(rt, &course, inputs, stamps, first, gate)
}
