//! The stations once all their turns are made.
ghost use Rattle.std.specs.Prelude.{◌≡◌, ◌<◌, length, All, IfOk};
ghost use Rattle.world_rules.specs.Scenarios.{actors_in};
ghost use Rattle.station_turns.specs.Naming.{IsStationOf};
ghost use Rattle.replica_threads.specs.Ended.{HasEnded};
ghost use Rattle.replica_threads.specs.Hands.{IsShared, ArePassesOf};

use crate::handing::owner;
use crate::{Posted, Shared, lacking};
use inboxes::InboxPass;
use plain_lists::Want;
use station_turns::{Naming, OwnStation, Owner, Station};
use std::marker::Brand;
use std::sync::Wait;

/// The station of this actor, whose hands have ended, once the actor has made the turns that it lacked.
fn finished_of<N: Naming, A: Owner, R: Wait>(
    rt: &R,
    shared: &Shared<'_>,
    station: Station<N>,
    actor: u32,
    passes: &mut Vec<InboxPass<Posted>>,
) -> Result<Station<N>, Want>
    requires shared { IsShared N.name shared.now }
    requires whose { (actor ≡ A.actor) × IsStationOf A.actor station }
    requires there { actor < actors_in N.name.scenario }
    requires passes { ArePassesOf shared.now.inboxes.now passes.old.items }
    ensures passes { ArePassesOf shared.now.inboxes.now passes.new.items }
    ensures ended { IfOk result (λ station. HasEnded N.name.turns station) }
{
    let mut station = OwnStation::<N, A>::new(station);
    lacking(rt, shared, &mut station, actor, passes)?;
    Ok(station.into_station())
}

/// The station of an actor whose hands have ended, once the actor has made the turns that it lacked.
fn finished<N: Naming, R: Wait>(
    rt: &R,
    shared: &Shared<'_>,
    station: Station<N>,
    passes: &mut Vec<InboxPass<Posted>>,
) -> Result<Station<N>, Want>
    requires shared { IsShared N.name shared.now }
    requires passes { ArePassesOf shared.now.inboxes.now passes.old.items }
    ensures passes { ArePassesOf shared.now.inboxes.now passes.new.items }
    ensures ended { IfOk result (λ station. HasEnded N.name.turns station) }
{
    let actor = owner(&station)?;
    finished_of::<N, Brand, R>(rt, shared, station, actor, passes)
}

/// The stations of all actors, whose hands have ended, once each has made the turns that it lacked. They make them one after
/// another.
pub(crate) fn all_finished<N: Naming, R: Wait>(
    rt: &R,
    shared: &Shared<'_>,
    stations: Vec<Station<N>>,
    mut passes: Vec<InboxPass<Posted>>,
) -> Result<Vec<Station<N>>, Want>
    requires shared { IsShared N.name shared.now }
    requires passes { ArePassesOf shared.now.inboxes.now passes.items }
    ensures all { IfOk result (λ all. length all.items ≡ length stations.items) }
    ensures ended { IfOk result (λ all. All (HasEnded N.name.turns) all.items) }
{
    let mut all = Vec::with_capacity(shared.alloc, stations.len())?;
    for station in stations {
        all.push(finished(rt, shared, station, &mut passes)?)?;
    }
    Ok(all)
}
