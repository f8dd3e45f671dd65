//! The turns that an actor lacks once all its hands have ended.
ghost use Rattle.std.specs.Prelude.{◌≡◌, ◌⊎◌, ◌+◌, ◌<◌, true, false, IfOk, IfSome, OnOk};
ghost use Rattle.history_rules.specs.Setup.{stands};
ghost use Rattle.world_rules.specs.Scenarios.{setup_of, actors_in};
ghost use Rattle.world_history.specs.KeptState.{halted_in};
ghost use Rattle.station_turns.specs.Pace.{turns_made};
ghost use Rattle.replica_threads.specs.Hands.{IsShared, ArePassesOf};
ghost use Rattle.replica_threads.specs.Letters.{HaveSentTurns};

use crate::posted::Posted;
use crate::posting::post_all;
use crate::shared::Shared;
use crate::taking::next_held;
use checked_frames::RingMemory;
use inboxes::InboxPass;
use plain_lists::Want;
use station_turns::{Held, Naming, OwnStation, Owner};
use std::sync::Wait;

/// One turn, whose frames are posted. It gives the frame that is still held.
fn make_turn<N: Naming, A: Owner, R: Wait>(
    rt: &R,
    shared: &Shared<'_>,
    memory: &mut RingMemory,
    station: &mut OwnStation<N, A>,
    actor: u32,
    held: Option<Held>,
    passes: &mut Vec<InboxPass<Posted>>,
) -> Result<Option<Held>, Want>
    requires shared { IsShared N.name shared.now }
    requires whose { actor ≡ A.actor }
    requires there { actor < actors_in N.name.scenario }
    requires passes { ArePassesOf shared.now.inboxes.now passes.old.items }
    requires stands { IfSome held (λ h. stands (setup_of N.name.scenario) h.frame ≡ true) }
    requires works { station.old.given_up ≡ false }
    requires running { halted_in station.old.kept.bench ≡ false }
    requires left { turns_made station.old.kept.bench.list < N.name.turns }
    ensures passes { ArePassesOf shared.now.inboxes.now passes.new.items }
    ensures sent { OnOk result (HaveSentTurns N.name actor passes.old.items passes.new.items) }
    ensures stands { IfOk result (λ back. IfSome back (λ h. stands (setup_of N.name.scenario) h.frame ≡ true)) }
    ensures works { OnOk result (station.new.given_up ≡ false) }
    ensures made { OnOk result ((halted_in station.new.kept.bench ≡ true) ⊎ (turns_made station.new.kept.bench.list ≡ turns_made station.old.kept.bench.list + 1)) }
{
    let taken = next_held(rt, shared, memory, actor, held, passes)?;
    let mut turned = station.turn(shared.scenario, shared.stamps, taken)?;
    post_all(rt, shared, actor, &turned, passes)?;
    Ok(turned.held.take())
}

/// Makes the turns that the actor `A`, whose number it is given and whose station this is by its type, still lacks, unless it is
/// halted.
pub fn lacking<N: Naming, A: Owner, R: Wait>(
    rt: &R,
    shared: &Shared<'_>,
    station: &mut OwnStation<N, A>,
    actor: u32,
    passes: &mut Vec<InboxPass<Posted>>,
) -> Result<(), Want>
    requires shared { IsShared N.name shared.now }
    requires whose { actor ≡ A.actor }
    requires there { actor < actors_in N.name.scenario }
    requires passes { ArePassesOf shared.now.inboxes.now passes.old.items }
    ensures passes { ArePassesOf shared.now.inboxes.now passes.new.items }
    ensures sent { OnOk result (HaveSentTurns N.name actor passes.old.items passes.new.items) }
    ensures works { OnOk result (station.new.given_up ≡ false) }
    ensures all { OnOk result ((halted_in station.new.kept.bench ≡ true) ⊎ (turns_made station.new.kept.bench.list ≡ N.name.turns)) }
{
    if station.is_given_up() {
        return Err(Want);
    }
    let mut memory = RingMemory::new(shared.alloc, shared.ring);
    let mut held = None;
    for _made in station.count()..shared.turns {
        if station.halted() {
            return Ok(());
        }
        held = make_turn(rt, shared, &mut memory, station, actor, held, passes)?;
    }
    Ok(())
}
