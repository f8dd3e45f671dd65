//! The frames that an actor takes from its inbox.
ghost use Rattle.std.specs.Prelude.{◌≡◌, ◌<◌, [], length, true, IfOk, IfSome};
ghost use Rattle.history_rules.specs.Setup.{stands};
ghost use Rattle.world_rules.specs.Scenarios.{setup_of};
ghost use Rattle.scenario_file.specs.Reading.{Contents};
ghost use Rattle.world_history.specs.Signed.{ring_in};
ghost use Rattle.inboxes.specs.Passes.{known, IsPassOf};
ghost use Rattle.replica_threads.specs.Hands.{ArePassesOf, Takes};
ghost use Rattle.replica_threads.specs.Letters.{HaveSent};

use crate::posted::Posted;
use crate::shared::Shared;
use checked_frames::RingMemory;
use inboxes::{Inbox, InboxPass};
use plain_lists::Want;
use station_turns::Held;
use std::sync::Wait;

/// The next frame of an inbox, as a turn can take it: none where the inbox gave none, or where the frame doesn't stand. Nothing
/// is posted.
fn take_held<R: Wait>(
    rt: &R,
    shared: &Shared<'_>,
    memory: &mut RingMemory,
    inbox: &Inbox<Posted>,
    pass: &mut InboxPass<Posted>,
) -> Result<Option<Held>, Want>
    requires of { IsPassOf inbox.now pass.old }
    ensures of { IsPassOf inbox.now pass.new }
    ensures quiet { (known pass.new).posted ≡ (known pass.old).posted }
    ensures takes { IfOk result (λ held. (c : Contents) → shared.now.ring.now ≡ ring_in c → Takes c pass.old held pass.new) }
{
    match inbox.take(rt, pass) {
        Some(posted) => posted.into_held(shared.alloc, shared.ring, memory),
        None => Ok(None),
    }
}

/// The frame that the actor holds, or else the next of its inbox. Nothing is posted.
pub(crate) fn next_held<R: Wait>(
    rt: &R,
    shared: &Shared<'_>,
    memory: &mut RingMemory,
    actor: u32,
    held: Option<Held>,
    passes: &mut Vec<InboxPass<Posted>>,
) -> Result<Option<Held>, Want>
    requires there { actor < length shared.now.inboxes.now }
    requires passes { ArePassesOf shared.now.inboxes.now passes.old.items }
    ensures passes { ArePassesOf shared.now.inboxes.now passes.new.items }
    ensures quiet { HaveSent passes.old.items [] passes.new.items }
    ensures stands { IfOk result (λ next. (c : Contents) → shared.now.ring.now ≡ ring_in c → IfSome held (λ h. stands (setup_of c) h.frame ≡ true)
        → IfSome next (λ h. stands (setup_of c) h.frame ≡ true)) }
{
    if held.is_some() {
        return Ok(held);
    }
    let place = actor as usize;
    take_held(
        rt,
        shared,
        memory,
        &shared.inboxes[place],
        &mut passes[place],
    )
}
