ghost use Rattle.std.specs.Prelude.{◌≡◌, ◌<◌, ◌≤◌, ◌++◌, ◌-◌, ℕ, List, [], OnOk};
ghost use Rattle.std.specs.List.{flat_map};
ghost use Rattle.message_types.specs.declared.signed.Signed.{Signed as SignedWord};
ghost use Rattle.message_types.specs.declared.body.Body.{Body as Word};
ghost use Rattle.protocol_rules.specs.Group.{Group, most_number};
ghost use Rattle.protocol_rules.specs.Words.{numbers_from};
ghost use Rattle.protocol_rules.specs.Preorder.{ack_due, acks_due};
ghost use Rattle.preorder.specs.Index.{HasFirsts, HasPending};

use crate::firsts::Firsts;
use message_types::{Body, PoAck, update_digest};
use plain_lists::Want;
use quorum_sets::{MASTER_PLACES, MOST_MASTERS};

/// For each master where the numbers stand for which an acknowledgement is due: from `low` to below
/// `high`.
#[derive(Clone, Copy)]
pub struct PendingAcks {
    pub low: [u64; MASTER_PLACES],
    pub high: [u64; MASTER_PLACES],
}

/// Adds the acknowledgements due, by master and then number.
pub fn push_acks(
    bodies: &mut Vec<Body>,
    firsts: &Firsts,
    masters: u32,
    pending: &PendingAcks,
) -> Result<(), Want>
    requires { masters ≤ MOST_MASTERS }
    ensures { (g : Group) (known : List (SignedWord Word)) (said : List Word) → g.n ≡ masters → HasFirsts g known said firsts.now.entries
        → HasPending known said pending.now.low pending.now.high
        → OnOk result (bodies.new.items ≡ bodies.old.items ++ acks_due g known said) }
{
    for master in 0..masters {
        let low = pending.low[master as usize];
        let high = pending.high[master as usize];
        push_acks_of(bodies, firsts, master, low, high)?;
    }
    Ok(())
}

fn push_acks_of(
    bodies: &mut Vec<Body>,
    firsts: &Firsts,
    master: u32,
    low: u64,
    high: u64,
) -> Result<(), Want>
    ensures { (g : Group) (known : List (SignedWord Word)) (said : List Word) → HasFirsts g known said firsts.now.entries
        → OnOk result (bodies.new.items ≡ bodies.old.items ++ flat_map (ack_due known said master) (numbers_from low (high - low))) }
{
    for number in low..high {
        push_ack(bodies, firsts, master, number)?;
    }
    Ok(())
}

/// Adds the acknowledgement due for request `k` of master `j`, if there is one.
pub fn push_ack(bodies: &mut Vec<Body>, firsts: &Firsts, j: u32, k: u64) -> Result<(), Want>
    ensures { (g : Group) (known : List (SignedWord Word)) (said : List Word) → HasFirsts g known said firsts.now.entries
        → OnOk result (bodies.new.items ≡ bodies.old.items ++ ack_due known said j k) }
{
    match firsts.get(&(j, k)) {
        None => Ok(()),
        Some(first) => {
            if first.acked {
                return Ok(());
            }
            let digest = update_digest(&first.update);
            bodies.push(Body::PoAck(PoAck { j, k, digest }))?;
            Ok(())
        }
    }
}
