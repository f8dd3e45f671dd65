ghost use Rattle.std.specs.Prelude.{◌≡◌, ◌+◌, ◌<◌, ◌≤◌, ◌++◌, ◌∷◌, ℕ, [], List, None, false, option_map, if◌then◌else◌};
ghost use Rattle.indexmap.specs.IndexMap.{spare};
ghost use Rattle.message_types.specs.declared.signed.Signed.{Signed as SignedWord};
ghost use Rattle.message_types.specs.declared.body.Body.{Body as Word};
ghost use Rattle.message_types.specs.declared.body.Body.TheVariants as body;
ghost use Rattle.message_types.specs.Parts.{as_frame};
ghost use Rattle.protocol_rules.specs.Group.{Group, most_number};
ghost use Rattle.protocol_rules.specs.Words.{first_of_list};
ghost use Rattle.protocol_rules.specs.Preorder.{updates_requested, acks};
ghost use Rattle.preorder.specs.Index.{HasFirsts, AcknowledgesKnown, at_pair, same_pair, with_ack};

use indexmap::IndexMap;
use message_types::{Body, PoRequest, Signed, Update};

/// The first request for a number.
#[derive(Clone, Copy)]
pub struct First {
    pub update: Update,
    /// Whether an acknowledgement was said for it.
    pub acked: bool,
}

/// The first request for each master and number.
pub type Firsts = IndexMap<(u32, u64), First>;

/// Notes a request, unless one for its number is there.
pub fn note_first(firsts: &mut Firsts, frame: &Signed<PoRequest>)
    requires room { 1 ≤ spare firsts.old }
    requires first { 1 ≤ frame.now.body.k }
    requires last { frame.now.body.k ≤ most_number }
    ensures { (g : Group) (known : List (SignedWord Word)) (said : List Word) → frame.now.signer < g.n
        → HasFirsts g known said firsts.old.entries → HasFirsts g (known ++ as_frame body.PoRequest frame.now ∷ []) said firsts.new.entries }
{
    let key = (frame.signer, frame.body.k);
    if firsts.contains_key(&key) {
        return;
    }
    let first = First {
        update: frame.body.update.body,
        acked: false,
    };
    firsts.insert(key, first).unwrap();
}

/// Notes that these bodies were said, which acknowledge only what was requested.
pub fn note_said(firsts: &mut Firsts, bodies: &[Body])
    ensures { (g : Group) (known : List (SignedWord Word)) (said : List Word) → AcknowledgesKnown known bodies.now
        → HasFirsts g known said firsts.old.entries → HasFirsts g known (said ++ bodies.now) firsts.new.entries }
{
    for body in bodies {
        note_body(firsts, body);
    }
}

fn note_body(firsts: &mut Firsts, body: &Body)
    ensures { (g : Group) (known : List (SignedWord Word)) (said : List Word)
        → ((j k : ℕ) → first_of_list (updates_requested known j k) ≡ None → acks j k body.now ≡ false)
        → HasFirsts g known said firsts.old.entries → HasFirsts g known (said ++ body.now ∷ []) firsts.new.entries }
{
    if let Body::PoAck(ack) = body {
        note_acked(firsts, ack.j, ack.k);
    }
}

fn note_acked(firsts: &mut Firsts, j: u32, k: u64)
    ensures { (key : ℕ × ℕ) → at_pair firsts.new.entries key
        ≡ (if same_pair (j, k) key then option_map with_ack (at_pair firsts.old.entries key) else at_pair firsts.old.entries key) }
{
    let Some(first) = firsts.get(&(j, k)) else {
        return;
    };
    let acked = First {
        update: first.update,
        acked: true,
    };
    firsts.insert((j, k), acked).unwrap();
}
