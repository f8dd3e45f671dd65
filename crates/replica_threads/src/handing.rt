//! The hands of all actors, in threads.
ghost use Rattle.std.specs.Prelude.{◌≡◌, ◌<◌, length, IfOk};
ghost use Rattle.world_rules.specs.Scenarios.{actors_in};
ghost use Rattle.station_turns.specs.Naming.{IsStationOf};
ghost use Rattle.replica_threads.specs.Courses.{CanTurn, AreAllReady};
ghost use Rattle.replica_threads.specs.Hands.{IsShared, ArePassesOf};

use crate::gathering::gathered;
use crate::job::Job;
use crate::{Gate, Shared, hand};
use plain_lists::Want;
use station_turns::{Naming, OwnStation, Owner, Station};
use std::marker::Brand;
use std::sync::{Mutex, Wait};
use std::thread;
use std::thread::Threads;

/// The turns of an actor's hands, each in a thread of its own where one can be made. The lock that they share is made for this
/// actor's station, and no other hand has it. It gives the station back when all of them have ended: `Want` if memory ran out
/// under one.
fn make_turns_of<
    N: Naming + Send + Sync,
    A: Owner + Send + Sync,
    R: Threads + Wait + Sync,
    G: Gate + Sync,
>(
    rt: &R,
    shared: &Shared<'_>,
    gate: &G,
    station: Station<N>,
    actor: u32,
    jobs: Vec<Job>,
) -> Result<Station<N>, Want>
    requires whose { (actor ≡ A.actor) × IsStationOf A.actor station }
    requires there { actor < actors_in N.name.scenario }
    requires can { CanTurn N.name shared.now jobs.items }
    ensures whose { IfOk result (λ station. IsStationOf A.actor station) }
{
    let lock = Mutex::new(OwnStation::<N, A>::new(station));
    let ended = thread::map_vec(
        rt,
        jobs,
        &|mut job: Job| -> Result<(), Want>
            requires { IsShared N.name shared.now × (actor ≡ A.actor) × (actor < actors_in N.name.scenario) × ArePassesOf shared.now.inboxes.now job.passes.items }
        { hand::<N, A, R, G>(rt, shared, &lock, gate, actor, &mut job.passes) },
    )?;
    for hand in ended {
        hand?;
    }
    Ok(lock.into_inner().into_station())
}

/// The number of the actor whose station it is. `Want` where the station was given up.
pub(crate) fn owner<N: Naming>(station: &Station<N>) -> Result<u32, Want>
    ensures whose { IfOk result (λ actor. IsStationOf actor station.now) }
    ensures there { IfOk result (λ actor. actor < actors_in N.name.scenario) }
{
    if station.is_given_up() {
        return Err(Want);
    }
    Ok(station.actor())
}

/// The turns of the hands of a station's actor.
fn make_turns<N: Naming + Send + Sync, R: Threads + Wait + Sync, G: Gate + Sync>(
    rt: &R,
    shared: &Shared<'_>,
    gate: &G,
    station: Station<N>,
    jobs: Vec<Job>,
) -> Result<Station<N>, Want>
    requires { CanTurn N.name shared.now jobs.items }
{
    let actor = owner(&station)?;
    make_turns_of::<N, Brand, R, G>(rt, shared, gate, station, actor, jobs)
}

/// The turns of all hands, those of each actor side by side with those of the others where threads can be made. It gives the
/// stations back when all of them have ended: `Want` if memory ran out under one.
pub(crate) fn make_all_turns<N: Naming + Send + Sync, R: Threads + Wait + Sync, G: Gate + Sync>(
    rt: &R,
    shared: &Shared<'_>,
    gate: &G,
    crews: Vec<(Vec<Job>, Station<N>)>,
) -> Result<Vec<Station<N>>, Want>
    requires { AreAllReady N.name shared.now crews.items }
    ensures { IfOk result (λ stations. length stations.items ≡ length crews.items) }
{
    let ended = thread::map_vec(
        rt,
        crews,
        &|crew: (Vec<Job>, Station<N>)| -> Result<Station<N>, Want>
            requires { CanTurn N.name shared.now crew.0.items }
        { make_turns::<N, R, G>(rt, shared, gate, crew.1, crew.0) },
    )?;
    gathered(shared.alloc, ended)
}
