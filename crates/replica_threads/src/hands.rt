//! One hand of an actor.
ghost use Rattle.std.specs.Prelude.{◌≡◌, ◌<◌, true, IfOk, IfSome, OnOk};
ghost use Rattle.history_rules.specs.Setup.{stands};
ghost use Rattle.world_rules.specs.Scenarios.{setup_of, actors_in};
ghost use Rattle.replica_threads.specs.Hands.{IsShared, ArePassesOf};
ghost use Rattle.replica_threads.specs.Letters.{IsWellTurned, IsTurnOf, HaveSentTurns};

use crate::gate::Gate;
use crate::posted::Posted;
use crate::posting::post_all;
use crate::shared::Shared;
use crate::taking::next_held;
use checked_frames::RingMemory;
use inboxes::InboxPass;
use plain_lists::Want;
use station_turns::{Held, Naming, OwnStation, Owner, Turned};
use std::sync::{Mutex, Wait};
use std::thread::Threads;

/// A turn of an actor under its lock, which is free again at the end. None where the actor has made all its turns or was halted.
fn turn_under_lock<N: Naming, A: Owner, R: Threads + Wait, G: Gate>(
    rt: &R,
    shared: &Shared<'_>,
    station: &Mutex<OwnStation<N, A>>,
    gate: &G,
    actor: u32,
    held: Option<Held>,
) -> Result<Option<Turned>, Want>
    requires shared { IsShared N.name shared.now }
    requires whose { actor ≡ A.actor }
    requires stands { IfSome held (λ h. stands (setup_of N.name.scenario) h.frame ≡ true) }
    ensures well { IfOk result (λ turned. IfSome turned (λ t. IsWellTurned N.name.scenario t)) }
    ensures whose { IfOk result (λ turned. IfSome turned (λ t. IsTurnOf N.name actor t)) }
{
    let mut guard = station.lock(rt);
    let station = &mut *guard;
    if station.is_given_up() {
        return Err(Want);
    }
    let count = station.count();
    if station.halted() || count >= shared.turns {
        return Ok(None);
    }
    gate.inside(rt, actor, count + 1);
    Ok(Some(station.turn(shared.scenario, shared.stamps, held)?))
}

/// The turns of one hand of the actor `A`, whose number it is given: at most as many as an actor makes, and none once the actor
/// has made them all or was halted. The lock holds that actor's station and no other, by its type, whatever other hands do to
/// it. `Want` where memory ran out, here or at another hand of the actor.
pub fn hand<N: Naming, A: Owner, R: Threads + Wait, G: Gate>(
    rt: &R,
    shared: &Shared<'_>,
    station: &Mutex<OwnStation<N, A>>,
    gate: &G,
    actor: u32,
    passes: &mut Vec<InboxPass<Posted>>,
) -> Result<(), Want>
    requires shared { IsShared N.name shared.now }
    requires whose { actor ≡ A.actor }
    requires there { actor < actors_in N.name.scenario }
    requires passes { ArePassesOf shared.now.inboxes.now passes.old.items }
    ensures passes { ArePassesOf shared.now.inboxes.now passes.new.items }
    ensures sent { OnOk result (HaveSentTurns N.name actor passes.old.items passes.new.items) }
{
    let mut memory = RingMemory::new(shared.alloc, shared.ring);
    let mut held = None;
    for turn in 0..shared.turns {
        gate.pass(rt, actor, turn);
        let taken = next_held(rt, shared, &mut memory, actor, held, passes)?;
        let Some(mut turned) = turn_under_lock(rt, shared, station, gate, actor, taken)? else {
            return Ok(());
        };
        post_all(rt, shared, actor, &turned, passes)?;
        held = turned.held.take();
    }
    Ok(())
}
