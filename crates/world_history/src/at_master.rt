//! A correct master at its events.
ghost use Rattle.std.specs.Prelude.{◌≡◌, ◌++◌, ◌∷◌, [], ℕ, List, Bool, true, false, Option, OnOk, IfOk};
ghost use Rattle.message_types.specs.declared.signed.Signed.{Signed as SignedWord};
ghost use Rattle.message_types.specs.declared.body.Body.{Body as Word};
ghost use Rattle.protocol_rules.specs.Master.{Heard};
ghost use Rattle.history_rules.specs.Events.{is_silent};
ghost use Rattle.master_node.specs.Charge.{Charge};
ghost use Rattle.master_node.specs.Running.{IsRunning, HasSpoken, AreItsFrames};
ghost use Rattle.world_entries.specs.Entries.{event_of};
ghost use Rattle.world_history.specs.Roles.{says_event, HasAnswered, CanHear};

use master_node::Node;
use message_types::{Body, Frame};
use plain_lists::Want;
use std::alloc::Global;
use world_entries::Event;

/// What a master says at an event of its own. It waits for its frames then.
pub(crate) fn answer_at_master(
    alloc: Global,
    node: &mut Node,
    event: &Event,
) -> Result<Vec<Body>, Want>
    requires { CanHear node.old (event_of event.now) }
    ensures said { IfOk result (λ bodies. (c : Charge) (before : List Heard) → IsRunning c node.old.running before
        → bodies.items ≡ says_event c before (event_of event.now)) }
    ensures answered { OnOk result ((c : Charge) (before : List Heard) → IsRunning c node.old.running before
        → HasAnswered c before (event_of event.now) node.new) }
{
    match event {
        Event::Took { frame, .. } => node.hear(frame.frame()),
        Event::Tick => node.tick(),
        Event::Skip | Event::Restart => Ok(Vec::new(alloc)),
        Event::Command { .. } | Event::Field { .. } | Event::Poll | Event::Cry { .. } => {
            unreachable!()
        }
    }
}

/// Whether an actor hears and says nothing at the event.
fn is_silent(event: &Event) -> bool
    ensures { result ≡ is_silent (event_of event.now) }
{
    matches!(event, Event::Skip | Event::Restart)
}

/// Hands a master the frames of what it said at the event.
pub(crate) fn hand(node: &mut Node, event: &Event, frames: &[Frame]) -> Result<(), Want>
    ensures silent { OnOk result (is_silent (event_of event.now) ≡ true → node.new ≡ node.old) }
    ensures loud { OnOk result (is_silent (event_of event.now) ≡ false → (c : Charge) (before : List Heard) (took : Option (SignedWord Word)) (at_tick : Bool)
        → HasSpoken c node.old.running before took at_tick → AreItsFrames c before took at_tick frames.now
        → IsRunning c node.new.running (before ++ record { took = took; is_tick = at_tick; said = frames.now } ∷ [])) }
    ensures works { OnOk result (node.old.is_spent ≡ false → node.new.is_spent ≡ false) }
{
    if is_silent(event) {
        return Ok(());
    }
    node.signed(frames)
}
