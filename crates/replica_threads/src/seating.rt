//! The stations of a run before its first turn.
ghost use Rattle.std.specs.Prelude.{◌≡◌, ◌+◌, ◌<◌, [], true, length, map, All, IfOk, OnOk};
ghost use Rattle.std.specs.List.{slice_index_or};
ghost use Rattle.world_rules.specs.Scenarios.{actors_in};
ghost use Rattle.station_turns.specs.Pace.{fit_inputs};
ghost use Rattle.replica_threads.specs.Courses.{AreFit, IsCourse, IsPlace, seats_made};

use crate::course::Course;
use crate::gathering::gathered;
use crate::place::Place;
use plain_lists::Want;
use play_words::Input;
use stamps::{StampSeat, Stamps};
use station_turns::{Naming, Station};
use std::thread;
use std::thread::Threads;

/// An actor with a seat that is split off from the first one.
fn seated<N: Naming>(
    stamps: &Stamps,
    first: &mut StampSeat,
    actor: u32,
    inputs: Vec<Input>,
) -> Place
    requires source { stamps.now ≡ N.name.source }
    requires seats { stamps.now.seats ≡ actors_in N.name.scenario + 1 }
    requires first { first.old ≡ seats_made stamps.now actor }
    requires there { actor < actors_in N.name.scenario }
    requires inputs { inputs.items ≡ slice_index_or N.name.inputs actor [] }
    requires fit { fit_inputs N.name.scenario actor inputs.items ≡ true }
    ensures first { first.new ≡ seats_made stamps.now (actor + 1) }
    ensures place { IsPlace N.name result }
{
    let Some(seat) = stamps.split(first) else {
        unreachable!()
    };
    Place {
        actor,
        seat,
        inputs,
    }
}

/// All actors with their seats, in the order of their numbers. `inputs` has a list for each, and the seats are split off from the
/// first one in that order.
fn places<N: Naming>(
    course: &Course<'_>,
    stamps: &Stamps,
    first: &mut StampSeat,
    inputs: Vec<Vec<Input>>,
) -> Result<Vec<Place>, Want>
    requires course { IsCourse N.name course.now }
    requires source { stamps.now ≡ N.name.source }
    requires seats { stamps.now.seats ≡ actors_in N.name.scenario + 1 }
    requires first { first.old ≡ seats_made stamps.now 0 }
    requires inputs { map (λ list. list.items) inputs.items ≡ N.name.inputs }
    requires fit { AreFit N.name.scenario N.name.inputs }
    ensures first { OnOk result (first.new ≡ seats_made stamps.now (actors_in N.name.scenario)) }
    ensures all { IfOk result (λ places. length places.items ≡ actors_in N.name.scenario) }
    ensures places { IfOk result (λ places. All (IsPlace N.name) places.items) }
{
    let mut places = Vec::with_capacity(course.alloc, inputs.len())?;
    let mut lists = inputs.into_iter();
    for actor in 0..course.actors() {
        let Some(list) = lists.next() else {
            unreachable!()
        };
        places.push(seated::<N>(stamps, first, actor, list))?;
    }
    Ok(places)
}

/// The station of an actor before its first turn. It makes the actor's key, which takes longest.
fn station_at<N: Naming>(course: &Course<'_>, place: Place) -> Result<Station<N>, Want>
    requires course { IsCourse N.name course.now }
    requires place { IsPlace N.name place }
{
    Station::make(
        course.alloc,
        course.scenario,
        place.actor,
        place.seat,
        place.inputs,
        course.turns,
    )
}

/// The stations of all actors, in the order of their numbers, each made in a thread of its own where one can be made. `inputs`
/// has a list for each actor.
pub(crate) fn stations<N: Naming + Send + Sync, R: Threads + Sync>(
    rt: &R,
    course: &Course<'_>,
    stamps: &Stamps,
    first: &mut StampSeat,
    inputs: Vec<Vec<Input>>,
) -> Result<Vec<Station<N>>, Want>
    requires course { IsCourse N.name course.now }
    requires source { stamps.now ≡ N.name.source }
    requires seats { stamps.now.seats ≡ actors_in N.name.scenario + 1 }
    requires first { first.old ≡ seats_made stamps.now 0 }
    requires inputs { map (λ list. list.items) inputs.items ≡ N.name.inputs }
    requires fit { AreFit N.name.scenario N.name.inputs }
    ensures first { OnOk result (first.new ≡ seats_made stamps.now (actors_in N.name.scenario)) }
    ensures all { IfOk result (λ stations. length stations.items ≡ actors_in N.name.scenario) }
{
    let places = places::<N>(course, stamps, first, inputs)?;
    let made = thread::map_vec(
        rt,
        places,
        &|place: Place| -> Result<Station<N>, Want>
            requires { IsCourse N.name course.now × IsPlace N.name place }
        { station_at::<N>(course, place) },
    )?;
    gathered(course.alloc, made)
}
