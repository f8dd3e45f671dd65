ghost use Rattle.std.specs.Prelude.{◌≡◌, ◌<◌, ◌≤◌, ◌++◌, ℕ, List, [], OnOk};
ghost use Rattle.message_types.specs.declared.signed.Signed.{Signed as SignedWord};
ghost use Rattle.message_types.specs.declared.updates.Update.{Update as Change};
ghost use Rattle.message_types.specs.declared.body.Body.{Body as Word};
ghost use Rattle.protocol_rules.specs.Group.{Group, group_of, is_door as is_door_of};
ghost use Rattle.protocol_rules.specs.Words.{numbers_from};
ghost use Rattle.protocol_rules.specs.Execution.{updates_of};
ghost use Rattle.protocol_rules.specs.Turns.{next_in_turn, requests_in_turn_due};
ghost use Rattle.preorder.specs.Index.{HasUpdates, HasNumbers};
ghost use Rattle.preorder.specs.Counted.{IsIntroduced, AreCounts};

use crate::requests::is_door;
use crate::updates::Updates;
use message_types::{Body, PoRequest};
use plain_lists::{Copied, Want};
use protocol_rules::MOST_NUMBER;
use quorum_sets::{CLIENT_PLACES, MOST_CLIENTS, Sizes};

/// How far the requests said went.
#[derive(Clone, Copy)]
pub struct Introduced {
    /// The greatest number of a request.
    pub request: u64,
    /// The greatest number of an update of each client.
    pub updates: [u64; CLIENT_PLACES],
}

/// Adds the requests due in turn, clients in number order, and counts them as said.
pub fn push_requests_in_turn(
    bodies: &mut Vec<Body>,
    updates: &Updates,
    sizes: &Sizes,
    clients: u32,
    me: u32,
    executed: &[u64; CLIENT_PLACES],
    introduced: &mut Introduced,
) -> Result<(), Want>
    requires { clients ≤ MOST_CLIENTS }
    ensures added { (taken : List (SignedWord Word)) (done : List Change) (said : List Word) → HasUpdates taken updates.now.entries → HasNumbers updates.now.entries
        → AreCounts clients executed.now done → IsIntroduced said introduced.old
        → OnOk result (bodies.new.items ≡ bodies.old.items ++ requests_in_turn_due (group_of sizes.now clients) me taken done said (numbers_from 0 clients)) }
    ensures counted { (taken : List (SignedWord Word)) (done : List Change) (said : List Word) → HasUpdates taken updates.now.entries → HasNumbers updates.now.entries
        → AreCounts clients executed.now done → IsIntroduced said introduced.old
        → OnOk result (IsIntroduced (said ++ requests_in_turn_due (group_of sizes.now clients) me taken done said (numbers_from 0 clients)) introduced.new) }
{
    for client in 0..clients {
        let door = is_door(sizes, client, me);
        push_request_in_turn(
            bodies,
            updates,
            door,
            client,
            executed[client as usize],
            introduced,
        )?;
    }
    Ok(())
}

// Adds the next request for one client, if it is due.
fn push_request_in_turn(
    bodies: &mut Vec<Body>,
    updates: &Updates,
    is_door: bool,
    client: u32,
    executed: u64,
    introduced: &mut Introduced,
) -> Result<(), Want>
    requires { client < MOST_CLIENTS }
    ensures added { (g : Group) (me : ℕ) (taken : List (SignedWord Word)) (done : List Change) (said : List Word) → is_door ≡ is_door_of g client me
        → HasUpdates taken updates.now.entries → HasNumbers updates.now.entries → executed ≡ updates_of client done → IsIntroduced said introduced.old
        → OnOk result (bodies.new.items ≡ bodies.old.items ++ next_in_turn g me taken done said client) }
    ensures counted { (g : Group) (me : ℕ) (taken : List (SignedWord Word)) (done : List Change) (said : List Word) → is_door ≡ is_door_of g client me
        → HasUpdates taken updates.now.entries → HasNumbers updates.now.entries → executed ≡ updates_of client done → IsIntroduced said introduced.old
        → OnOk result (IsIntroduced (said ++ next_in_turn g me taken done said client) introduced.new) }
{
    if !is_door {
        return Ok(());
    }
    if introduced.request >= MOST_NUMBER {
        return Ok(());
    }
    let last = introduced.updates[client as usize].max(executed);
    let Some(number) = last.checked_add(1) else {
        return Ok(());
    };
    match updates.get(&(client, number)) {
        None => Ok(()),
        Some(frame) => {
            let k = introduced.request + 1;
            let update = frame.copy()?;
            bodies.push(Body::PoRequest(PoRequest { k, update }))?;
            introduced.request = k;
            introduced.updates[client as usize] = number;
            Ok(())
        }
    }
}
