ghost use Rattle.std.specs.Prelude.{◌≡◌, ℕ, Bool, List, None, Some, OnOk, IsTrue, is_some, if◌then◌else◌};
ghost use Rattle.std.specs.List.{list_any};
ghost use Rattle.std.specs.Str.{bytes_eq};
ghost use Rattle.indexmap.specs.IndexMap.{get};
ghost use Rattle.protocol_rules.specs.Words.{or_else};
ghost use Rattle.global_order.specs.Choosing.{lesser};
ghost use Rattle.global_order.specs.Index.{same_pair, first_in, least_in, is_backing, slot_waits, KeepsSlots, TakesDigest};
ghost use Rattle.global_order.specs.Unsaid.{HasPending, holds_prepared};

use crate::pending::{PendingNumbers, note_pending};
use crate::quorum::Quorum;
use crate::waiting::Waiting;
use indexmap::IndexMap;
use plain_lists::Want;

/// What a quorum prepared in a view as a number, where its rows are known.
#[derive(Clone, Copy)]
pub struct Slot {
    /// The digest that was prepared first: it is prepared.
    pub first: Option<[u8; 32]>,
    /// The least digest prepared: a report brings its certificate.
    pub least: Option<[u8; 32]>,
}

/// A slot for each view and number that a quorum prepared.
pub type Slots = IndexMap<(u64, u64), Slot>;

/// Makes a place where there is none.
pub fn make_slot(slots: &mut Slots, v: u64, s: u64) -> Result<(), Want>
    ensures kept { KeepsSlots slots.old slots.new }
    ensures place { OnOk result (IsTrue (is_some (get same_pair slots.new (v, s)))) }
{
    if slots.contains_key(&(v, s)) {
        return Ok(());
    }
    let slot = Slot {
        first: None,
        least: None,
    };
    slots.insert((v, s), slot)?;
    Ok(())
}

/// Has the slot of a view and number, which is there, take a digest.
pub fn put_digest(slots: &mut Slots, v: u64, s: u64, digest: [u8; 32])
    requires { IsTrue (is_some (get same_pair slots.old (v, s))) }
    ensures { TakesDigest (same_pair (v, s)) digest slots.old slots.new }
{
    let Some(slot) = slots.get(&(v, s)) else {
        return;
    };
    let slot = with_digest(*slot, digest);
    slots.insert((v, s), slot).unwrap();
}

fn with_digest(slot: Slot, digest: [u8; 32]) -> Slot
    ensures first { result.first ≡ or_else slot.first (Some digest) }
    ensures least { result.least ≡ lesser slot.least digest }
{
    let first = match slot.first {
        None => digest,
        Some(first) => first,
    };
    let least = match slot.least {
        None => digest,
        Some(least) => { if digest < least { digest } else { least } }
    };
    Slot {
        first: Some(first),
        least: Some(least),
    }
}

/// Has the slots whose quorums waited for rows of this digest take it, so that none waits for them any more.
pub fn settle_slots(
    backed: &mut Waiting,
    slots: &mut Slots,
    pending: &mut PendingNumbers,
    digest: [u8; 32],
)
    requires { (k : ℕ × ℕ) → IsTrue (slot_waits backed.old k digest) → IsTrue (is_some (get same_pair slots.old k)) }
    ensures slots { TakesDigest (λ k. slot_waits backed.old k digest) digest slots.old slots.new }
    ensures backed { (d : List ℕ) → get bytes_eq backed.new d ≡ (if bytes_eq digest d then None else get bytes_eq backed.old d) }
    ensures pending { (said : ℕ → ℕ → Bool) → HasPending said (holds_prepared slots.old) pending.old → HasPending said (holds_prepared slots.new) pending.new }
{
    match backed.swap_remove(&digest) {
        None => {}
        Some(quorums) => put_digests(slots, pending, &quorums, digest),
    }
}

/// Has the slots of these quorums that are for rows of this digest take it.
fn put_digests(
    slots: &mut Slots,
    pending: &mut PendingNumbers,
    waiting: &[Quorum],
    digest: [u8; 32],
)
    requires { (k : ℕ × ℕ) → IsTrue (list_any (is_backing k digest) waiting.now) → IsTrue (is_some (get same_pair slots.old k)) }
    ensures slots { TakesDigest (λ k. list_any (is_backing k digest) waiting.now) digest slots.old slots.new }
    ensures pending { (said : ℕ → ℕ → Bool) → HasPending said (holds_prepared slots.old) pending.old → HasPending said (holds_prepared slots.new) pending.new }
{
    for quorum in waiting {
        if quorum.digest == digest {
            put_digest(slots, quorum.v, quorum.s, digest);
            note_pending(pending, quorum.v, quorum.s);
        }
    }
}

/// The digest that was prepared first in a view as a number.
pub fn first_digest(slots: &Slots, v: u64, s: u64) -> Option<[u8; 32]>
    ensures { result ≡ first_in (get same_pair slots.now (v, s)) }
{
    match slots.get(&(v, s)) {
        None => None,
        Some(slot) => slot.first,
    }
}

/// The least digest that was prepared in a view as a number.
pub fn least_digest(slots: &Slots, v: u64, s: u64) -> Option<[u8; 32]>
    ensures { result ≡ least_in (get same_pair slots.now (v, s)) }
{
    match slots.get(&(v, s)) {
        None => None,
        Some(slot) => slot.least,
    }
}
