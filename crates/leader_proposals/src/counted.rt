ghost use Rattle.std.specs.Prelude.{◌≡◌, ◌≤◌, ◌&&◌, ℕ, IfSome, length, max, option_copied, slice_index, if◌then◌else◌};
ghost use Rattle.std.specs.Option.{option_to_list};
ghost use Rattle.protocol_rules.specs.Group.{group_of};
ghost use Rattle.protocol_rules.specs.Matrix as rules;
ghost use Rattle.protocol_rules.specs.Order.{plan_known};
ghost use Rattle.protocol_rules.specs.Master.{counted_rows};
ghost use Rattle.summary_matrix.specs.Held.{TellsEach};
ghost use Rattle.global_order.specs.OrderState.{Where};
ghost use Rattle.leader_proposals.specs.Counting.{KnowsFewRows, has_whole_base};

use global_order::Order;
use message_types::{Plan, Rows};
use quorum_sets::{MOST_MASTERS, Sizes};
use summary_matrix::{Reach, eligible};

/// The plan of a view, where its leader may offer.
pub(crate) fn plan_to_offer(
    order: &Order,
    view: u64,
    leads: bool,
    is_open: bool,
    at_tick: bool,
) -> Option<&Plan>
    ensures { Where order.now (λ g facts ordered. option_copied result ≡ (if at_tick && leads && is_open then plan_known facts view else None)) }
{
    if at_tick && leads && is_open {
        order.plan(view)
    } else {
        None
    }
}

/// Whether all up to the base of a view's plan is ordered, where a plan is known.
pub(crate) fn is_whole(order: &Order, view: u64) -> bool
    ensures { Where order.now (λ g facts ordered. result ≡ has_whole_base g facts view) }
{
    match order.plan(view) {
        None => false,
        Some(plan) => plan.base <= order.gapless(),
    }
}

/// The rows of number `s` that the leader of view `v` counts as offered.
pub(crate) fn counted<'a>(order: &'a Order, plan: &Plan, v: u64, s: u64) -> Option<&'a Rows>
    requires { KnowsFewRows order.now }
    ensures rows { Where order.now (λ g facts ordered. option_copied result ≡ counted_rows g facts v plan.now s) }
    ensures few { IfSome result (λ rows. length rows.now ≤ MOST_MASTERS) }
{
    if s <= plan.base {
        order.ordered(s)
    } else {
        order.offered(v, s)
    }
}

/// Raises by what rows make eligible, if there are any.
pub(crate) fn raise_by(reach: &mut Reach, sizes: &Sizes, rows: Option<&Rows>)
    requires { IfSome rows (λ rows. length rows.now ≤ MOST_MASTERS) }
    ensures { (clients : ℕ) → TellsEach reach.new.numbers
        (λ j. max (slice_index reach.old.numbers j) (rules.reach (group_of sizes.now clients) (option_to_list (option_copied rows.entry)) j)) }
{
    if let Some(rows) = rows {
        reach.raise(&eligible(sizes, rows));
    }
}
