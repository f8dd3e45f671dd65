//! How the frames of a turn come to other actors.
ghost use Rattle.std.specs.Prelude.{◌≡◌, ◌<◌, ◌∷◌, [], length, map, nat_lt, true, Some, slice_get, IsTrue, IfOk, OnOk};
ghost use Rattle.message_types.specs.declared.signed.Signed.{Signed};
ghost use Rattle.message_types.specs.declared.body.Body.{Body as Word};
ghost use Rattle.std.specs.List.{list_all};
ghost use Rattle.message_types.specs.Spelling.{has_spelling};
ghost use Rattle.scenario_file.specs.Reading.{contents, Contents};
ghost use Rattle.scenario_file.specs.Valid.{IsScenario};
ghost use Rattle.script_laws.specs.Accepted.{is_there};
ghost use Rattle.history_rules.specs.Setup.{stands};
ghost use Rattle.world_rules.specs.Scenarios.{setup_of, actors_in};
ghost use Rattle.replica_threads.specs.Hands.{ArePassesOf};
ghost use Rattle.replica_threads.specs.Letters.{HaveSent, IsWellTurned, CanGo, most_frames, goes_to, letters_of, letters};

use crate::posted::Posted;
use crate::shared::Shared;
use inboxes::InboxPass;
use message_types::Frame;
use plain_lists::{Copied, Vector, Want};
use station_turns::Turned;
use std::alloc::Global;
use std::sync::Wait;
use world_history::addressees;

/// A frame's place is a number of 32 bits.
const MOST_FRAMES: usize = 1 << 32;

fn widened(alloc: Global, actors: &[u32]) -> Result<Vector, Want>
    ensures { IfOk result (λ made. made ≡ actors.now) }
{
    let mut made = Vector::new(alloc);
    for actor in actors {
        made.push(u64::from(*actor))?;
    }
    Ok(made)
}

/// The numbers of the actors that a frame of a turn goes to: the cry of a word to whom the word was said, each other frame where
/// its body goes.
fn goes_to(shared: &Shared<'_>, actor: u32, turned: &Turned, frame: &Frame) -> Result<Vector, Want>
    requires valid { IsScenario (contents shared.now.scenario.now) }
    requires can { CanGo (contents shared.now.scenario.now) turned.now frame.now }
    ensures to { IfOk result (λ to. to ≡ goes_to (contents shared.now.scenario.now) actor turned.now frame.now) }
    ensures there { IfOk result (λ to. list_all (is_there (contents shared.now.scenario.now)) to ≡ true) }
{
    if turned.cried {
        return turned.to.copy();
    }
    let to = addressees(shared.alloc, &shared.scenario.sizes, actor, &frame.body)?;
    widened(shared.alloc, to.as_slice())
}

/// Posts a frame to one actor.
fn post_one<R: Wait>(
    rt: &R,
    shared: &Shared<'_>,
    to: usize,
    posted: Posted,
    passes: &mut Vec<InboxPass<Posted>>,
) -> Result<(), Want>
    requires there { to < length shared.now.inboxes.now }
    requires spelled { IsTrue (has_spelling posted.frame) }
    requires passes { ArePassesOf shared.now.inboxes.now passes.old.items }
    ensures passes { ArePassesOf shared.now.inboxes.now passes.new.items }
    ensures sent { OnOk result (HaveSent passes.old.items ((to, posted) ∷ []) passes.new.items) }
{
    let refused = shared.inboxes[to]
        .post(rt, &mut passes[to], posted)
        .is_err();
    if refused {
        return Err(Want);
    }
    Ok(())
}

/// Posts a frame to these actors.
fn post<R: Wait>(
    rt: &R,
    shared: &Shared<'_>,
    to: &[u64],
    posted: &Posted,
    passes: &mut Vec<InboxPass<Posted>>,
) -> Result<(), Want>
    requires there { list_all (λ a. nat_lt a (length shared.now.inboxes.now)) to.now ≡ true }
    requires spelled { IsTrue (has_spelling posted.now.frame) }
    requires passes { ArePassesOf shared.now.inboxes.now passes.old.items }
    ensures passes { ArePassesOf shared.now.inboxes.now passes.new.items }
    ensures sent { OnOk result (HaveSent passes.old.items (map (λ a. (a, posted.now)) to.now) passes.new.items) }
{
    for actor in to {
        post_one(rt, shared, *actor as usize, posted.copy()?, passes)?;
    }
    Ok(())
}

/// Posts the frame of this place of a turn to all that it goes to.
fn post_frame<R: Wait>(
    rt: &R,
    shared: &Shared<'_>,
    actor: u32,
    turned: &Turned,
    place: usize,
    passes: &mut Vec<InboxPass<Posted>>,
) -> Result<(), Want>
    requires valid { IsScenario (contents shared.now.scenario.now) }
    requires inboxes { length shared.now.inboxes.now ≡ actors_in (contents shared.now.scenario.now) }
    requires there { place < length turned.now.frames.items }
    requires place { place < most_frames }
    requires well { IsWellTurned (contents shared.now.scenario.now) turned.now }
    requires passes { ArePassesOf shared.now.inboxes.now passes.old.items }
    ensures passes { ArePassesOf shared.now.inboxes.now passes.new.items }
    ensures sent { OnOk result ((f : Signed Word) → slice_get turned.now.frames.items place ≡ Some f
        → HaveSent passes.old.items (letters_of (contents shared.now.scenario.now) actor turned.now (record { stamp = turned.now.stamp; place = place; frame = f })) passes.new.items) }
{
    let frame = &turned.frames[place];
    let to = goes_to(shared, actor, turned, frame)?;
    let posted = Posted {
        stamp: turned.stamp,
        place: place as u32,
        frame: frame.copy()?,
    };
    post(rt, shared, to.as_slice(), &posted, passes)
}

/// Posts the frames of a turn of the actor, in their order.
pub(crate) fn post_all<R: Wait>(
    rt: &R,
    shared: &Shared<'_>,
    actor: u32,
    turned: &Turned,
    passes: &mut Vec<InboxPass<Posted>>,
) -> Result<(), Want>
    requires valid { IsScenario (contents shared.now.scenario.now) }
    requires inboxes { length shared.now.inboxes.now ≡ actors_in (contents shared.now.scenario.now) }
    requires well { IsWellTurned (contents shared.now.scenario.now) turned.now }
    requires passes { ArePassesOf shared.now.inboxes.now passes.old.items }
    ensures passes { ArePassesOf shared.now.inboxes.now passes.new.items }
    ensures sent { OnOk result (HaveSent passes.old.items (letters (contents shared.now.scenario.now) actor turned.now) passes.new.items) }
{
    let count = turned.frames.len().min(MOST_FRAMES);
    for place in 0..count {
        post_frame(rt, shared, actor, turned, place, passes)?;
    }
    Ok(())
}
