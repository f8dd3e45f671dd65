ghost use Rattle.std.specs.Prelude.{◌≡◌, ◌+◌, ◌<◌, ◌≤◌, ◌++◌, ◌∷◌, ℕ, List, [], OnOk, IfOk, map, slice_index, if◌then◌else◌};
ghost use Rattle.std.specs.List.{find, flat_map};
ghost use Rattle.std.specs.Option.{option_to_list};
ghost use Rattle.message_types.specs.declared.signed.Signed.{Signed as SignedWord};
ghost use Rattle.message_types.specs.declared.preordering.PoRequest.{PoRequest as Request};
ghost use Rattle.message_types.specs.declared.body.Body.{Body as Word};
ghost use Rattle.quorum_sets.specs.Masters.{numbers_below};
ghost use Rattle.protocol_rules.specs.Group.{Group, most_number};
ghost use Rattle.protocol_rules.specs.Preorder.{acks, requests_said, vector};
ghost use Rattle.protocol_rules.specs.Turns.{requests_number};
ghost use Rattle.preorder.specs.Again.{AreOwn, AcknowledgesFirsts};
ghost use Rattle.preorder.specs.Index.{HasCertified, HasFirsts, HasReach};

use crate::certificates::{CertifiedUpdates, run_end};
use crate::firsts::Firsts;
use crate::updates::Updates;
use message_types::{Body, PoAck, PoRequest, update_digest};
use plain_lists::{Copied, Want};
use quorum_sets::{MASTER_PLACES, MOST_MASTERS};
use std::alloc::Global;

/// The client and the number of the update of each request among these, in their order.
pub fn requested_in(alloc: Global, bodies: &[Body]) -> Result<Vec<(u32, u64)>, Want>
    ensures { IfOk result (λ keys. keys.items ≡ map (λ (b : Request). (b.update.body.client, b.update.body.t)) (requests_said bodies.now)) }
{
    let mut keys = Vec::new(alloc);
    for body in bodies {
        push_key(&mut keys, body)?;
    }
    Ok(keys)
}

fn push_key(keys: &mut Vec<(u32, u64)>, body: &Body) -> Result<(), Want>
    ensures { OnOk result (keys.new.items ≡ keys.old.items
        ++ map (λ (b : Request). (b.update.body.client, b.update.body.t)) (requests_said (body.now ∷ []))) }
{
    match body {
        Body::PoRequest(request) => {
            let update = request.update.body;
            keys.push((update.client, update.t))?;
            Ok(())
        }
        _ => Ok(()),
    }
}

/// How far the requests of any master are certified without a gap.
pub fn reach_of(certificates: &CertifiedUpdates, reach: &[u64; MASTER_PLACES], master: u32) -> u64
    ensures { (g : Group) (known : List (SignedWord Word)) → HasCertified g known certificates.now.entries → HasReach g known reach.now
        → result ≡ vector g known master }
{
    if master < MOST_MASTERS {
        reach[master as usize]
    } else {
        run_end(certificates, master, 0)
    }
}

/// Adds the own request after these certified ones again, if it was said and it is time.
pub fn push_request_again(
    bodies: &mut Vec<Body>,
    updates: &Updates,
    own: &[(u32, u64)],
    certified: u64,
    is_beat: bool,
) -> Result<(), Want>
    ensures { (said : List Word) → AreOwn said updates.now.entries own.now → certified ≤ most_number
        → OnOk result (bodies.new.items ≡ bodies.old.items
        ++ (if is_beat then option_to_list (find (requests_number (certified + 1)) said) else [])) }
{
    if !is_beat {
        return Ok(());
    }
    let Some(key) = own.get(certified as usize) else {
        return Ok(());
    };
    let Some(frame) = updates.get(key) else {
        return Ok(());
    };
    let update = frame.copy()?;
    let k = certified.saturating_add(1);
    bodies.push(Body::PoRequest(PoRequest { k, update }))?;
    Ok(())
}

/// Adds of each master the acknowledgement again that was said of its first request that isn't certified, if it is
/// time.
pub fn push_acks_again(
    bodies: &mut Vec<Body>,
    firsts: &Firsts,
    masters: u32,
    reach: &[u64; MASTER_PLACES],
    is_beat: bool,
) -> Result<(), Want>
    requires { masters ≤ MOST_MASTERS }
    ensures { (g : Group) (known : List (SignedWord Word)) (said : List Word) → HasFirsts g known said firsts.now.entries
        → AcknowledgesFirsts known said → HasReach g known reach.now
        → OnOk result (bodies.new.items ≡ bodies.old.items
        ++ (if is_beat then flat_map (λ j. option_to_list (find (acks j (vector g known j + 1)) said)) (numbers_below masters) else [])) }
{
    if is_beat {
        push_each_again(bodies, firsts, masters, reach)
    } else {
        Ok(())
    }
}

fn push_each_again(
    bodies: &mut Vec<Body>,
    firsts: &Firsts,
    masters: u32,
    reach: &[u64; MASTER_PLACES],
) -> Result<(), Want>
    requires { masters ≤ MOST_MASTERS }
    ensures { (g : Group) (known : List (SignedWord Word)) (said : List Word) → HasFirsts g known said firsts.now.entries
        → AcknowledgesFirsts known said → HasReach g known reach.now
        → OnOk result (bodies.new.items ≡ bodies.old.items
        ++ flat_map (λ j. option_to_list (find (acks j (vector g known j + 1)) said)) (numbers_below masters)) }
{
    for master in 0..masters {
        let k = reach[master as usize].saturating_add(1);
        push_ack_again(bodies, firsts, master, k)?;
    }
    Ok(())
}

fn push_ack_again(bodies: &mut Vec<Body>, firsts: &Firsts, j: u32, k: u64) -> Result<(), Want>
    ensures { (g : Group) (known : List (SignedWord Word)) (said : List Word) → HasFirsts g known said firsts.now.entries
        → AcknowledgesFirsts known said
        → OnOk result (bodies.new.items ≡ bodies.old.items ++ option_to_list (find (acks j k) said)) }
{
    match firsts.get(&(j, k)) {
        None => Ok(()),
        Some(first) => {
            if !first.acked {
                return Ok(());
            }
            let digest = update_digest(&first.update);
            bodies.push(Body::PoAck(PoAck { j, k, digest }))?;
            Ok(())
        }
    }
}
