ghost use Rattle.std.specs.Prelude.{◌≡◌, ◌<◌, ◌≤◌, ◌++◌, ℕ, List, [], OnOk};
ghost use Rattle.message_types.specs.declared.signed.Signed.{Signed as SignedWord};
ghost use Rattle.message_types.specs.declared.body.Body.{Body as Word};
ghost use Rattle.protocol_rules.specs.Group.{Group, group_of, is_door as is_door_of};
ghost use Rattle.protocol_rules.specs.Words.{numbers_from};
ghost use Rattle.protocol_rules.specs.Preorder.{next_request, requests_due};
ghost use Rattle.preorder.specs.Index.{HasUpdates};
ghost use Rattle.preorder.specs.Counted.{IsCounted};

use crate::updates::Updates;
use message_types::{Body, PoRequest};
use plain_lists::{Copied, Want};
use protocol_rules::MOST_NUMBER;
use quorum_sets::{CLIENT_PLACES, MOST_CLIENTS, Sizes};

/// How many requests were said, in all and for each client.
#[derive(Clone, Copy)]
pub struct Counts {
    pub introduced: u64,
    pub said_for: [u64; CLIENT_PLACES],
}

/// Adds the requests due, clients in number order, and counts them as said.
pub fn push_requests(
    bodies: &mut Vec<Body>,
    updates: &Updates,
    sizes: &Sizes,
    clients: u32,
    me: u32,
    counts: &mut Counts,
) -> Result<(), Want>
    requires { clients ≤ MOST_CLIENTS }
    ensures added { (taken : List (SignedWord Word)) (said : List Word) → HasUpdates taken updates.now.entries → IsCounted said counts.old
        → OnOk result (bodies.new.items ≡ bodies.old.items ++ requests_due (group_of sizes.now clients) me taken said (numbers_from 0 clients)) }
    ensures counted { (taken : List (SignedWord Word)) (said : List Word) → HasUpdates taken updates.now.entries → IsCounted said counts.old
        → OnOk result (IsCounted (said ++ requests_due (group_of sizes.now clients) me taken said (numbers_from 0 clients)) counts.new) }
{
    for client in 0..clients {
        push_request(bodies, updates, is_door(sizes, client, me), client, counts)?;
    }
    Ok(())
}

// Adds the next request for one client, if it is due.
fn push_request(
    bodies: &mut Vec<Body>,
    updates: &Updates,
    is_door: bool,
    client: u32,
    counts: &mut Counts,
) -> Result<(), Want>
    requires { client < MOST_CLIENTS }
    ensures added { (g : Group) (me : ℕ) (taken : List (SignedWord Word)) (said : List Word) → is_door ≡ is_door_of g client me → HasUpdates taken updates.now.entries → IsCounted said counts.old
        → OnOk result (bodies.new.items ≡ bodies.old.items ++ next_request g me taken said client) }
    ensures counted { (g : Group) (me : ℕ) (taken : List (SignedWord Word)) (said : List Word) → is_door ≡ is_door_of g client me → HasUpdates taken updates.now.entries → IsCounted said counts.old
        → OnOk result (IsCounted (said ++ next_request g me taken said client) counts.new) }
{
    if !is_door {
        return Ok(());
    }
    if counts.introduced >= MOST_NUMBER {
        return Ok(());
    }
    let number = counts.said_for[client as usize].saturating_add(1);
    match updates.get(&(client, number)) {
        None => Ok(()),
        Some(frame) => {
            let k = counts.introduced + 1;
            let update = frame.copy()?;
            bodies.push(Body::PoRequest(PoRequest { k, update }))?;
            counts.introduced = k;
            counts.said_for[client as usize] = number;
            Ok(())
        }
    }
}

/// Whether the master is a door of the client.
pub fn is_door(sizes: &Sizes, client: u32, master: u32) -> bool
    requires { client < MOST_CLIENTS }
    ensures { (clients : ℕ) → result ≡ is_door_of (group_of sizes.now clients) client master }
{
    for step in 0..sizes.f + sizes.k + 1 {
        if (client + step) % sizes.n == master {
            return true;
        }
    }
    false
}
