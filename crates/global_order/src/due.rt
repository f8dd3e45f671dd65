ghost use Rattle.std.specs.Prelude.{◌≡◌, ◌+◌, ◌-◌, ◌≤◌, ◌<◌, ◌^◌, ◌++◌, ℕ, Bool, List, OnOk, IsTrue, Some};
ghost use Rattle.std.specs.List.{flat_map, list_any};
ghost use Rattle.indexmap.specs.IndexMap.{get};
ghost use Rattle.std.specs.HashSet.{contains};
ghost use Rattle.message_types.specs.declared.body.Body.{Body as Word};
ghost use Rattle.protocol_rules.specs.declared.facts.OrderFact.{OrderFact as Fact};
ghost use Rattle.protocol_rules.specs.Group.{Group};
ghost use Rattle.protocol_rules.specs.Words.{numbers_from};
ghost use Rattle.protocol_rules.specs.Order.{prepare_due, commit_due, mark_due};
ghost use Rattle.global_order.specs.Index.{same_pair, first_in, prepared_in};
ghost use Rattle.global_order.specs.Offered.{HasOffers, OffersFit};
ghost use Rattle.global_order.specs.Saying.{HasSaidPrepares, HasSaidCommits, HasMarked};
ghost use Rattle.global_order.specs.Unsaid.{HasPending, holds_prepared, offers_rows, said_in};

use crate::offers::{Offers, offered_in};
use crate::pending::PendingNumbers;
use crate::said::Places;
use crate::slots::{Slots, first_digest};
use message_types::{Body, Commit, Mark, Prepare, rows_digest};
use plain_lists::Want;
use protocol_rules::MARK_STEP;

/// Adds the prepares due in the pending view for the numbers below `end`.
pub fn push_pending_prepares(
    bodies: &mut Vec<Body>,
    offers: &Offers,
    said: &Places,
    pending: &PendingNumbers,
    end: u64,
) -> Result<(), Want>
    requires { OffersFit offers.now }
    ensures { OnOk result ((facts : List Fact) (words : List Word) → HasOffers facts offers.now → HasSaidPrepares words said.now → HasPending (said_in said.now) (offers_rows facts) pending.now
        → bodies.new.items ≡ bodies.old.items ++ flat_map (prepare_due facts words pending.now.view) (numbers_from 1 (end - 1))) }
{
    let PendingNumbers {
        view,
        low,
        high,
        beyond,
    } = *pending;
    push_prepares(bodies, offers, said, view, low, high.min(end))?;
    push_prepares(bodies, offers, said, view, beyond.min(end), end)?;
    Ok(())
}

/// Adds the prepares due in a view for the numbers from `low` to below `high`.
fn push_prepares(
    bodies: &mut Vec<Body>,
    offers: &Offers,
    said: &Places,
    v: u64,
    low: u64,
    high: u64,
) -> Result<(), Want>
    requires { OffersFit offers.now }
    ensures { OnOk result ((facts : List Fact) (words : List Word) → HasOffers facts offers.now → HasSaidPrepares words said.now
        → bodies.new.items ≡ bodies.old.items ++ flat_map (prepare_due facts words v) (numbers_from low (high - low))) }
{
    for s in low..high {
        push_prepare(bodies, offers, said, v, s)?;
    }
    Ok(())
}

fn push_prepare(
    bodies: &mut Vec<Body>,
    offers: &Offers,
    said: &Places,
    v: u64,
    s: u64,
) -> Result<(), Want>
    requires { OffersFit offers.now }
    ensures { OnOk result ((facts : List Fact) (words : List Word) → HasOffers facts offers.now → HasSaidPrepares words said.now
        → bodies.new.items ≡ bodies.old.items ++ prepare_due facts words v s) }
{
    if said.contains(&(v, s)) {
        return Ok(());
    }
    match offered_in(offers, v, s) {
        None => Ok(()),
        Some(rows) => {
            let digest = rows_digest(rows);
            bodies.push(Body::Prepare(Prepare { v, s, digest }))?;
            Ok(())
        }
    }
}

/// Adds the commits due in the pending view for the numbers below `end`.
pub fn push_pending_commits(
    bodies: &mut Vec<Body>,
    slots: &Slots,
    said: &Places,
    pending: &PendingNumbers,
    end: u64,
) -> Result<(), Want>
    ensures { OnOk result ((g : Group) (facts : List Fact) (words : List Word) → ((k : ℕ × ℕ) → first_in (get same_pair slots.now k) ≡ prepared_in g facts k) → HasSaidCommits words said.now
        → HasPending (said_in said.now) (holds_prepared slots.now) pending.now
        → bodies.new.items ≡ bodies.old.items ++ flat_map (commit_due g facts words pending.now.view) (numbers_from 1 (end - 1))) }
{
    let PendingNumbers {
        view,
        low,
        high,
        beyond,
    } = *pending;
    push_commits(bodies, slots, said, view, low, high.min(end))?;
    push_commits(bodies, slots, said, view, beyond.min(end), end)?;
    Ok(())
}

/// Adds the commits due in a view for the numbers from `low` to below `high`.
fn push_commits(
    bodies: &mut Vec<Body>,
    slots: &Slots,
    said: &Places,
    v: u64,
    low: u64,
    high: u64,
) -> Result<(), Want>
    ensures { OnOk result ((g : Group) (facts : List Fact) (words : List Word) → ((k : ℕ × ℕ) → first_in (get same_pair slots.now k) ≡ prepared_in g facts k) → HasSaidCommits words said.now
        → bodies.new.items ≡ bodies.old.items ++ flat_map (commit_due g facts words v) (numbers_from low (high - low))) }
{
    for s in low..high {
        push_commit(bodies, slots, said, v, s)?;
    }
    Ok(())
}

fn push_commit(
    bodies: &mut Vec<Body>,
    slots: &Slots,
    said: &Places,
    v: u64,
    s: u64,
) -> Result<(), Want>
    ensures { OnOk result ((g : Group) (facts : List Fact) (words : List Word) → ((k : ℕ × ℕ) → first_in (get same_pair slots.now k) ≡ prepared_in g facts k) → HasSaidCommits words said.now
        → bodies.new.items ≡ bodies.old.items ++ commit_due g facts words v s) }
{
    if said.contains(&(v, s)) {
        return Ok(());
    }
    match first_digest(slots, v, s) {
        None => Ok(()),
        Some(digest) => {
            bodies.push(Body::Commit(Commit { v, s, digest }))?;
            Ok(())
        }
    }
}

/// Adds the marks due for the numbers after `marked` up to `reach`.
pub fn push_marks(bodies: &mut Vec<Body>, marked: u64, reach: u64) -> Result<(), Want>
    requires reach { reach < 2 ^ 32 }
    requires marked { marked ≤ reach }
    ensures { OnOk result ((words : List Word) → HasMarked words marked
        → bodies.new.items ≡ bodies.old.items ++ flat_map (mark_due words) (numbers_from (marked + 1) (reach - marked))) }
{
    for s in marked + 1..reach + 1 {
        push_mark(bodies, marked, s)?;
    }
    Ok(())
}

fn push_mark(bodies: &mut Vec<Body>, marked: u64, s: u64) -> Result<(), Want>
    requires { marked < s }
    ensures { OnOk result ((words : List Word) → HasMarked words marked → bodies.new.items ≡ bodies.old.items ++ mark_due words s) }
{
    if s % MARK_STEP != 0 {
        return Ok(());
    }
    bodies.push(Body::Mark(Mark { s }))?;
    Ok(())
}
