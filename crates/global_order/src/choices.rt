ghost use Rattle.std.specs.Prelude.{◌≡◌, ◌+◌, ◌≤◌, ◌++◌, ◌∷◌, ℕ, Bool, List, [], Option, Some, None, IsTrue, is_some, nat_eq, vec_len};
ghost use Rattle.std.specs.Bool.{OnTrue, OnFalse};
ghost use Rattle.std.specs.List.{list_all};
ghost use Rattle.indexmap.specs.IndexMap.{spare, get};
ghost use Rattle.message_types.specs.Digests.{digest_of_rows};
ghost use Rattle.message_types.specs.Spelling.{rows_fit};
ghost use Rattle.global_order.specs.Index.{Agrees, HasHighestOrder, HasPlaces, HasRoomFor, OrdersGrow, same_pair, with_rows, with_all, with_quorum, with_choice};
ghost use Rattle.global_order.specs.Unsaid.{HasPendingCommits};

use crate::letting::let_go;
use crate::orders::{Orders, put_order, raised_to, settle_orders};
use crate::pending::{PendingNumbers, note_pending};
use crate::quorum::Quorum;
use crate::slots::{Slots, put_digest, settle_slots};
use crate::waiting::{Waiting, put_waiting};
use indexmap::IndexMap;
use message_types::{Rows, rows_digest};

/// The first known rows of each digest.
pub type Known = IndexMap<[u8; 32], Rows>;

/// What is prepared and ordered.
pub struct Choices {
    pub rows: Known,
    pub prepared: Slots,
    /// The quorums of prepares that wait for their rows.
    pub backed: Waiting,
    /// Where commits may be due.
    pub pending: PendingNumbers,
    pub ordered: Orders,
    /// The quorums of commits that wait for their rows.
    pub committed: Waiting,
    /// The greatest number ordered, 0 where there is none.
    pub highest: u64,
}

// Each part of an order is taken apart by itself: the drop of the whole is then short to prove.
impl Drop for Choices {
    fn drop(self) {
        let Choices {
            rows,
            prepared,
            backed,
            pending: _,
            ordered,
            committed,
            highest: _,
        } = self;
        let_go(rows);
        let_go(prepared);
        let_go(backed);
        let_go(ordered);
        let_go(committed);
    }
}

/// Makes rows known.
pub fn learn(choices: &mut Choices, rows: Rows)
    requires fit { IsTrue (rows_fit rows) }
    requires room { 1 ≤ spare choices.old.rows }
    requires places { HasPlaces choices.old }
    ensures places { HasPlaces choices.new }
    ensures known { (known : List (List (List ℕ))) (prepares : ℕ × ℕ → List ℕ → Bool) (first : ℕ × ℕ → Option (List ℕ)) (commits : ℕ → List ℕ → Bool) (order : ℕ → Option (List ℕ))
        → Agrees known prepares first commits order choices.old
        → Agrees (known ++ rows ∷ []) prepares (with_rows prepares first (digest_of_rows rows)) commits (with_rows commits order (digest_of_rows rows)) choices.new }
    ensures room { spare choices.old.rows ≤ spare choices.new.rows + 1 }
    ensures grow { OrdersGrow choices.old.ordered choices.new.ordered }
    ensures pending { (said : ℕ → ℕ → Bool) → HasPendingCommits said choices.old → HasPendingCommits said choices.new }
    ensures highest { HasHighestOrder choices.old → HasHighestOrder choices.new }
{
    let digest = rows_digest(&rows);
    if choices.rows.contains_key(&digest) {
        return;
    }
    settle_slots(
        &mut choices.backed,
        &mut choices.prepared,
        &mut choices.pending,
        digest,
    );
    choices.highest = settle_orders(
        &mut choices.committed,
        &mut choices.ordered,
        choices.highest,
        digest,
    );
    choices.rows.insert(digest, rows).unwrap();
}

/// Makes all of these rows known.
pub fn learn_all(choices: &mut Choices, all: Vec<Rows>)
    requires fit { IsTrue (list_all rows_fit all.items) }
    requires room { vec_len all ≤ spare choices.old.rows }
    requires places { HasPlaces choices.old }
    ensures places { HasPlaces choices.new }
    ensures known { (known : List (List (List ℕ))) (prepares : ℕ × ℕ → List ℕ → Bool) (first : ℕ × ℕ → Option (List ℕ)) (commits : ℕ → List ℕ → Bool) (order : ℕ → Option (List ℕ))
        → Agrees known prepares first commits order choices.old
        → Agrees (known ++ all.items) prepares (with_all prepares first all.items) commits (with_all commits order all.items) choices.new }
    ensures grow { OrdersGrow choices.old.ordered choices.new.ordered }
    ensures pending { (said : ℕ → ℕ → Bool) → HasPendingCommits said choices.old → HasPendingCommits said choices.new }
    ensures highest { HasHighestOrder choices.old → HasHighestOrder choices.new }
{
    for rows in all {
        learn(choices, rows);
    }
}

/// Notes a quorum of prepares, if it is new.
pub fn note_if_prepared(choices: &mut Choices, is_new: bool, v: u64, s: u64, digest: [u8; 32])
    requires place { IsTrue (is_some (get same_pair choices.old.prepared (v, s))) }
    requires room { HasRoomFor digest choices.old.backed }
    ensures places { HasPlaces choices.old → HasPlaces choices.new }
    ensures new { OnTrue is_new ((known : List (List (List ℕ))) (prepares : ℕ × ℕ → List ℕ → Bool) (first : ℕ × ℕ → Option (List ℕ)) (commits : ℕ → List ℕ → Bool) (order : ℕ → Option (List ℕ))
        → Agrees known prepares first commits order choices.old
        → Agrees known (with_quorum same_pair (v, s) digest prepares) (with_choice same_pair (v, s) digest known first) commits order choices.new) }
    ensures old { OnFalse is_new (choices.new ≡ choices.old) }
    ensures ordered { choices.new.ordered ≡ choices.old.ordered }
    ensures pending { (said : ℕ → ℕ → Bool) → HasPendingCommits said choices.old → HasPendingCommits said choices.new }
    ensures highest { choices.new.highest ≡ choices.old.highest }
{
    if is_new {
        note_prepared(choices, v, s, digest);
    }
}

/// Notes a quorum of commits, if it is new.
pub fn note_if_committed(choices: &mut Choices, is_new: bool, v: u64, s: u64, digest: [u8; 32])
    requires place { IsTrue (is_some (get nat_eq choices.old.ordered s)) }
    requires room { HasRoomFor digest choices.old.committed }
    ensures places { HasPlaces choices.old → HasPlaces choices.new }
    ensures new { OnTrue is_new ((known : List (List (List ℕ))) (prepares : ℕ × ℕ → List ℕ → Bool) (first : ℕ × ℕ → Option (List ℕ)) (commits : ℕ → List ℕ → Bool) (order : ℕ → Option (List ℕ))
        → Agrees known prepares first commits order choices.old
        → Agrees known prepares first (with_quorum nat_eq s digest commits) (with_choice nat_eq s digest known order) choices.new) }
    ensures old { OnFalse is_new (choices.new ≡ choices.old) }
    ensures grow { OrdersGrow choices.old.ordered choices.new.ordered }
    ensures pending { (said : ℕ → ℕ → Bool) → HasPendingCommits said choices.old → HasPendingCommits said choices.new }
    ensures highest { HasHighestOrder choices.old → HasHighestOrder choices.new }
{
    if is_new {
        note_committed(choices, v, s, digest);
    }
}

/// Notes a quorum of prepares.
fn note_prepared(choices: &mut Choices, v: u64, s: u64, digest: [u8; 32])
    requires place { IsTrue (is_some (get same_pair choices.old.prepared (v, s))) }
    requires room { HasRoomFor digest choices.old.backed }
    ensures places { HasPlaces choices.old → HasPlaces choices.new }
    ensures agrees { (known : List (List (List ℕ))) (prepares : ℕ × ℕ → List ℕ → Bool) (first : ℕ × ℕ → Option (List ℕ)) (commits : ℕ → List ℕ → Bool) (order : ℕ → Option (List ℕ))
        → Agrees known prepares first commits order choices.old
        → Agrees known (with_quorum same_pair (v, s) digest prepares) (with_choice same_pair (v, s) digest known first) commits order choices.new }
    ensures ordered { choices.new.ordered ≡ choices.old.ordered }
    ensures pending { (said : ℕ → ℕ → Bool) → HasPendingCommits said choices.old → HasPendingCommits said choices.new }
    ensures highest { choices.new.highest ≡ choices.old.highest }
{
    if choices.rows.contains_key(&digest) {
        put_digest(&mut choices.prepared, v, s, digest);
        note_pending(&mut choices.pending, v, s);
        return;
    }
    put_waiting(&mut choices.backed, Quorum { v, s, digest });
}

/// Notes a quorum of commits.
fn note_committed(choices: &mut Choices, v: u64, s: u64, digest: [u8; 32])
    requires place { IsTrue (is_some (get nat_eq choices.old.ordered s)) }
    requires room { HasRoomFor digest choices.old.committed }
    ensures places { HasPlaces choices.old → HasPlaces choices.new }
    ensures agrees { (known : List (List (List ℕ))) (prepares : ℕ × ℕ → List ℕ → Bool) (first : ℕ × ℕ → Option (List ℕ)) (commits : ℕ → List ℕ → Bool) (order : ℕ → Option (List ℕ))
        → Agrees known prepares first commits order choices.old
        → Agrees known prepares first (with_quorum nat_eq s digest commits) (with_choice nat_eq s digest known order) choices.new }
    ensures grow { OrdersGrow choices.old.ordered choices.new.ordered }
    ensures pending { (said : ℕ → ℕ → Bool) → HasPendingCommits said choices.old → HasPendingCommits said choices.new }
    ensures highest { HasHighestOrder choices.old → HasHighestOrder choices.new }
{
    if choices.rows.contains_key(&digest) {
        put_order(&mut choices.ordered, s, digest);
        choices.highest = raised_to(choices.highest, s);
        return;
    }
    put_waiting(&mut choices.committed, Quorum { v, s, digest });
}
