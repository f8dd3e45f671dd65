ghost use Rattle.std.specs.Prelude.{◌≡◌, ◌≤◌, ℕ, List, IsTrue, IfSome, OnOk, OnErr, option_copied, is_some, nat_eq, if◌then◌else◌};
ghost use Rattle.std.specs.Bool.{OnTrue, OnFalse};
ghost use Rattle.std.specs.List.{list_all};
ghost use Rattle.indexmap.specs.IndexMap.{IsUnchanged, get, spare};
ghost use Rattle.message_types.specs.Spelling.{rows_fit};
ghost use Rattle.protocol_rules.specs.declared.facts.OrderFact.{OrderFact as Fact};
ghost use Rattle.protocol_rules.specs.Order.{plan_known, offered as offered_rows};
ghost use Rattle.global_order.specs.Index.{TakesFirst, same_pair};
ghost use Rattle.global_order.specs.Offered.{HasOffers, OffersFit};
ghost use Rattle.global_order.specs.Unsaid.{IsNoted, with_view};

use crate::letting::let_go;
use crate::pending::{PendingNumbers, note_all_pending, note_pending};
use indexmap::IndexMap;
use message_types::{Plan, Rows};

/// The plan of each view.
pub type Plans = IndexMap<u64, Plan>;

/// The rows of the first preprepare of each view and number.
pub type Proposals = IndexMap<(u64, u64), Rows>;

/// What the views offer.
pub struct Offers {
    /// The plan of view 0.
    pub first_plan: Plan,
    pub plans: Plans,
    pub proposals: Proposals,
    /// Where prepares may be due.
    pub pending: PendingNumbers,
}

impl Drop for Offers {
    fn drop(self) {
        let Offers {
            first_plan: _,
            plans,
            proposals,
            pending: _,
        } = self;
        let_go(plans);
        let_go(proposals);
    }
}

/// The plan of a view, where one is known.
pub fn plan_of_view(offers: &Offers, v: u64) -> Option<&Plan>
    requires { OffersFit offers.now }
    ensures value { (facts : List Fact) → HasOffers facts offers.now → option_copied result ≡ plan_known facts v }
    ensures fit { IfSome result (λ plan. IsTrue (list_all rows_fit plan.now.rows)) }
{
    if v == 0 {
        return Some(&offers.first_plan);
    }
    offers.plans.get(&v)
}

/// The rows that a view offers as a number.
pub fn offered_in(offers: &Offers, v: u64, s: u64) -> Option<&Rows>
    requires { OffersFit offers.now }
    ensures value { (facts : List Fact) → HasOffers facts offers.now → option_copied result ≡ offered_rows facts v s }
    ensures fit { IfSome result (λ rows. IsTrue (rows_fit rows.now)) }
{
    let plan = plan_of_view(offers, v)?;
    if s <= plan.base {
        return None;
    }
    let place = (s - plan.base - 1) as usize;
    if place < plan.rows.len() {
        return plan.rows.get(place);
    }
    offers.proposals.get(&(v, s))
}

/// Keeps a view's plan, unless one is kept.
pub fn note_plan(plans: &mut Plans, pending: &mut PendingNumbers, v: u64, plan: Plan)
    requires { 1 ≤ spare plans.old }
    ensures taken { TakesFirst nat_eq plans.old plans.new v plan }
    ensures pending { pending.new ≡ (if is_some (get nat_eq plans.old v) then pending.old else with_view v pending.old) }
{
    if plans.contains_key(&v) {
        return;
    }
    plans.insert(v, plan).unwrap();
    note_all_pending(pending, v);
}

/// Keeps what a view offers as a number, unless something is kept.
pub fn note_proposal(
    proposals: &mut Proposals,
    pending: &mut PendingNumbers,
    v: u64,
    s: u64,
    rows: Rows,
)
    requires { 1 ≤ spare proposals.old }
    ensures taken { TakesFirst same_pair proposals.old proposals.new (v, s) rows }
    ensures known { OnTrue (is_some (get same_pair proposals.old (v, s))) (pending.new ≡ pending.old) }
    ensures new { OnFalse (is_some (get same_pair proposals.old (v, s))) (IsNoted v s pending.old pending.new) }
{
    if proposals.contains_key(&(v, s)) {
        return;
    }
    proposals.insert((v, s), rows).unwrap();
    note_pending(pending, v, s);
}
