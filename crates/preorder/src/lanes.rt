ghost use Rattle.std.specs.Prelude.{◌≡◌, Some, ◌+◌, ◌<◌, ◌≤◌, ◌++◌, ◌&&◌, ℕ, List, [], OnOk, nat_lt, max, slice_index, slice_set, if◌then◌else◌};
ghost use Rattle.message_types.specs.declared.signed.Signed.{Signed as SignedWord};
ghost use Rattle.message_types.specs.declared.body.Body.{Body as Word};
ghost use Rattle.protocol_rules.specs.Group.{Group, group_of, is_door as is_door_of, most_number};
ghost use Rattle.protocol_rules.specs.Preorder.{ack_due};
ghost use Rattle.protocol_rules.specs.Turns.{first_requested, acks_in_turn_due};
ghost use Rattle.preorder.specs.Index.{HasFirsts};
ghost use Rattle.preorder.specs.Lanes.{AreLanes, HasLanes, IsLane, IsAcknowledged, ack_in_turn_due, lane_acks_due};

use crate::acks::push_ack;
use crate::firsts::Firsts;
use crate::requests::is_door;
use message_types::{Body, Update};
use plain_lists::Want;
use protocol_rules::MOST_NUMBER;
use quorum_sets::{CLIENT_PLACES, MASTER_PLACES, MOST_CLIENTS, Sizes};

/// How far the requests of a master had their turn.
#[derive(Clone, Copy)]
pub struct Lane {
    /// Its requests from 1 up to this number are known and had their turn.
    pub seen: u64,
    /// The greatest number of an update of each client among them.
    pub greatest: [u64; CLIENT_PLACES],
}

/// Adds the acknowledgements of the requests that have their turn, by master and then number. Each request is looked
/// at once.
pub fn push_acks_in_turn(
    bodies: &mut Vec<Body>,
    firsts: &Firsts,
    sizes: &Sizes,
    clients: u32,
    lanes: &mut [Lane; MASTER_PLACES],
) -> Result<(), Want>
    requires { clients ≤ MOST_CLIENTS }
    ensures added { (known : List (SignedWord Word)) (said : List Word) → HasFirsts (group_of sizes.now clients) known said firsts.now.entries
        → HasLanes (group_of sizes.now clients) known said lanes.old
        → OnOk result (bodies.new.items ≡ bodies.old.items ++ acks_in_turn_due (group_of sizes.now clients) known said) }
    ensures seen { (known : List (SignedWord Word)) (said : List Word) → HasFirsts (group_of sizes.now clients) known said firsts.now.entries
        → HasLanes (group_of sizes.now clients) known said lanes.old
        → OnOk result (AreLanes (group_of sizes.now clients) known lanes.new) }
{
    for master in 0..sizes.n {
        let mut lane = lanes[master as usize];
        push_lane(bodies, firsts, sizes, clients, master, &mut lane)?;
        lanes[master as usize] = lane;
    }
    Ok(())
}

// Adds those of one master.
fn push_lane(
    bodies: &mut Vec<Body>,
    firsts: &Firsts,
    sizes: &Sizes,
    clients: u32,
    master: u32,
    lane: &mut Lane,
) -> Result<(), Want>
    requires { clients ≤ MOST_CLIENTS }
    ensures added { (known : List (SignedWord Word)) (said : List Word) → HasFirsts (group_of sizes.now clients) known said firsts.now.entries
        → IsLane (group_of sizes.now clients) known master lane.old
        → IsAcknowledged (group_of sizes.now clients) known said master lane.old.seen
        → OnOk result (bodies.new.items ≡ bodies.old.items ++ lane_acks_due (group_of sizes.now clients) known said master) }
    ensures seen { (known : List (SignedWord Word)) (said : List Word) → HasFirsts (group_of sizes.now clients) known said firsts.now.entries
        → IsLane (group_of sizes.now clients) known master lane.old
        → OnOk result (IsLane (group_of sizes.now clients) known master lane.new) }
{
    while lane.seen < MOST_NUMBER {
        let Some(first) = firsts.get(&(master, lane.seen + 1)) else {
            return Ok(());
        };
        let update = first.update;
        look_at(bodies, firsts, sizes, clients, master, &update, lane)?;
    }
    Ok(())
}

// Looks at the lane's next request, which is of this update.
fn look_at(
    bodies: &mut Vec<Body>,
    firsts: &Firsts,
    sizes: &Sizes,
    clients: u32,
    master: u32,
    update: &Update,
    lane: &mut Lane,
) -> Result<(), Want>
    requires few { clients ≤ MOST_CLIENTS }
    requires more { lane.old.seen < most_number }
    ensures next { OnOk result (lane.new.seen ≡ lane.old.seen + 1) }
    ensures added { (known : List (SignedWord Word)) (said : List Word) → HasFirsts (group_of sizes.now clients) known said firsts.now.entries
        → IsLane (group_of sizes.now clients) known master lane.old
        → first_requested known master (lane.old.seen + 1) ≡ Some update.now
        → OnOk result (bodies.new.items ≡ bodies.old.items ++ ack_in_turn_due (group_of sizes.now clients) known said master (lane.old.seen + 1)) }
    ensures seen { (known : List (SignedWord Word)) → IsLane (group_of sizes.now clients) known master lane.old
        → first_requested known master (lane.old.seen + 1) ≡ Some update.now
        → OnOk result (IsLane (group_of sizes.now clients) known master lane.new) }
{
    let is_due = has_turn(update, sizes, clients, master, lane);
    push_ack_if(bodies, firsts, is_due, master, lane.seen + 1)?;
    pass(lane, update, clients);
    Ok(())
}

// Whether the lane's next request has its turn.
fn has_turn(update: &Update, sizes: &Sizes, clients: u32, master: u32, lane: &Lane) -> bool
    requires { clients ≤ MOST_CLIENTS }
    ensures { result ≡ (nat_lt update.now.client clients && is_door_of (group_of sizes.now clients) update.now.client master
        && nat_lt (slice_index lane.now.greatest update.now.client) update.now.t) }
{
    update.client < clients
        && is_door(sizes, update.client, master)
        && lane.greatest[update.client as usize] < update.t
}

fn push_ack_if(
    bodies: &mut Vec<Body>,
    firsts: &Firsts,
    is_due: bool,
    j: u32,
    k: u64,
) -> Result<(), Want>
    ensures { (g : Group) (known : List (SignedWord Word)) (said : List Word) → HasFirsts g known said firsts.now.entries
        → OnOk result (bodies.new.items ≡ bodies.old.items ++ (if is_due then ack_due known said j k else [])) }
{
    if is_due {
        push_ack(bodies, firsts, j, k)
    } else {
        Ok(())
    }
}

// The lane's next request had its turn.
fn pass(lane: &mut Lane, update: &Update, clients: u32)
    requires few { clients ≤ MOST_CLIENTS }
    requires more { lane.old.seen < most_number }
    ensures next { lane.new.seen ≡ lane.old.seen + 1 }
    ensures greatest { lane.new.greatest ≡ (if nat_lt update.now.client clients
        then slice_set lane.old.greatest update.now.client (max (slice_index lane.old.greatest update.now.client) update.now.t)
        else lane.old.greatest) }
{
    lane.seen += 1;
    if update.client < clients {
        let place = update.client as usize;
        lane.greatest[place] = lane.greatest[place].max(update.t);
    }
}
