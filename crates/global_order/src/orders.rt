ghost use Rattle.std.specs.Prelude.{◌≡◌, ◌≤◌, ℕ, List, None, Some, OnOk, IsTrue, is_some, nat_eq, if◌then◌else◌};
ghost use Rattle.std.specs.List.{list_any};
ghost use Rattle.std.specs.Str.{bytes_eq};
ghost use Rattle.indexmap.specs.IndexMap.{get};
ghost use Rattle.protocol_rules.specs.Group.{most_number};
ghost use Rattle.protocol_rules.specs.Words.{or_else};
ghost use Rattle.global_order.specs.Index.{order_in, is_ordering, order_waits, HasHighest, KeepsOrders, TakesOrder, Reaches, ReachesLess, RisesTo};

use crate::quorum::Quorum;
use crate::waiting::Waiting;
use indexmap::IndexMap;
use plain_lists::Want;
use protocol_rules::MOST_NUMBER;

/// The digest that is ordered as each number that a quorum committed, where its rows are known.
pub type Orders = IndexMap<u64, Option<[u8; 32]>>;

/// Makes a place where there is none.
pub fn make_order(orders: &mut Orders, s: u64) -> Result<(), Want>
    ensures kept { KeepsOrders orders.old orders.new }
    ensures place { OnOk result (IsTrue (is_some (get nat_eq orders.new s))) }
{
    if orders.contains_key(&s) {
        return Ok(());
    }
    orders.insert(s, None)?;
    Ok(())
}

/// Has the place of a number, which is there, take a digest, unless it has one.
pub fn put_order(orders: &mut Orders, s: u64, digest: [u8; 32])
    requires { IsTrue (is_some (get nat_eq orders.old s)) }
    ensures { TakesOrder (nat_eq s) digest orders.old orders.new }
{
    if let Some(Some(_)) = orders.get(&s) {
        return;
    }
    orders.insert(s, Some(digest)).unwrap();
}

/// Has the numbers whose quorums waited for rows of this digest take it, so that none waits for them any more. The result
/// is the greatest number ordered, where it was `highest`.
pub fn settle_orders(
    committed: &mut Waiting,
    orders: &mut Orders,
    highest: u64,
    digest: [u8; 32],
) -> u64
    requires { (s : ℕ) → IsTrue (order_waits committed.old s digest) → IsTrue (is_some (get nat_eq orders.old s)) }
    ensures orders { TakesOrder (λ s. order_waits committed.old s digest) digest orders.old orders.new }
    ensures committed { (d : List ℕ) → get bytes_eq committed.new d ≡ (if bytes_eq digest d then None else get bytes_eq committed.old d) }
    ensures highest { HasHighest (λ s. order_in (get nat_eq orders.old s)) highest → HasHighest (λ s. order_in (get nat_eq orders.new s)) result }
{
    match committed.swap_remove(&digest) {
        None => highest,
        Some(quorums) => put_orders(orders, highest, &quorums, digest),
    }
}

/// Has the numbers of these quorums that are for rows of this digest take it.
fn put_orders(orders: &mut Orders, highest: u64, waiting: &[Quorum], digest: [u8; 32]) -> u64
    requires { (s : ℕ) → IsTrue (list_any (is_ordering s digest) waiting.now) → IsTrue (is_some (get nat_eq orders.old s)) }
    ensures orders { TakesOrder (λ s. list_any (is_ordering s digest) waiting.now) digest orders.old orders.new }
    ensures highest { HasHighest (λ s. order_in (get nat_eq orders.old s)) highest → HasHighest (λ s. order_in (get nat_eq orders.new s)) result }
{
    let mut raised = highest;
    for quorum in waiting {
        if quorum.digest == digest {
            put_order(orders, quorum.s, digest);
            raised = raised_to(raised, quorum.s);
        }
    }
    raised
}

/// The number raised to another one that is ordered now.
pub fn raised_to(highest: u64, s: u64) -> u64
    ensures { RisesTo (nat_eq s) highest result }
{
    if s <= MOST_NUMBER {
        highest.max(s)
    } else {
        highest
    }
}

/// The digest that is ordered as a number.
pub fn order_of(orders: &Orders, s: u64) -> Option<[u8; 32]>
    ensures { result ≡ order_in (get nat_eq orders.now s) }
{
    match orders.get(&s) {
        None => None,
        Some(order) => *order,
    }
}

/// Up to which number all are ordered, where they are up to `start`.
pub fn run_end(orders: &Orders, start: u64) -> u64
    ensures reaches { ReachesLess (λ s. order_in (get nat_eq orders.now s)) start → Reaches (λ s. order_in (get nat_eq orders.now s)) result }
    ensures grows { start ≤ result }
{
    let mut end = start;
    while end < MOST_NUMBER && order_of(orders, end + 1).is_some() {
        end += 1;
    }
    end
}
