ghost use Rattle.std.specs.Prelude.{◌≡◌, ◌≤◌, ◌<◌, ◌||◌, ℕ, None, IfSome, OnErr, IfOk, length, min, nat_le, nat_lt, option_copied, slice_index};
ghost use Rattle.std.specs.Bool.{OnFalse};
ghost use Rattle.std.specs.List.{list_any};
ghost use Rattle.quorum_sets.specs.Masters.{numbers_below};
ghost use Rattle.protocol_rules.specs.Matrix.{reach as reach_of};
ghost use Rattle.protocol_rules.specs.Order.{gapless, offered, ordered_run};
ghost use Rattle.protocol_rules.specs.Worth.{plan_end, stands_at as standing, worthy_prepares_due};
ghost use Rattle.summary_matrix.specs.Held.{TellsEach};
ghost use Rattle.global_order.specs.OrderState.{HasSizes, Says, Stays, Where, prepares_up_to};
ghost use Rattle.leader_proposals.specs.Counting.{KnowsFewRows};
ghost use Rattle.leader_proposals.specs.Worthy.{IsAdded, IsWorthTo, ReachesBefore, worthy_bodies_due};

use global_order::Order;
use message_types::{Body, Rows};
use plain_lists::Want;
use quorum_sets::{MOST_MASTERS, Sizes};
use summary_matrix::{Reach, eligible};

/// The prepares, commits and marks due in a view by the rules that stay alive: prepares only for what is worth one. They
/// count as said from then on, and what isn't worth a prepare yet is looked at again at the next call. `reach` is how far
/// the numbers ordered without a gap make the requests of each master eligible.
pub fn due_worthy(
    order: &mut Order,
    sizes: &Sizes,
    view: u64,
    is_open: bool,
    reach: &Reach,
) -> Result<Vec<Body>, Want>
    requires rows { KnowsFewRows order.old }
    ensures due { IfOk result (λ bodies. Where order.old (λ g facts said. HasSizes g sizes.now.n sizes.now.q → TellsEach reach.now.numbers (reach_of g (ordered_run g facts))
        → bodies.items ≡ worthy_bodies_due g facts said view is_open)) }
    ensures said { IfOk result (λ bodies. Says order.old order.new bodies.items) }
    ensures refused { OnErr result (Stays order.old order.new) }
{
    let last = last_worthy(order, sizes, view, is_open, reach);
    let bodies = order.due_up_to(view, last)?;
    Ok(bodies)
}

/// Up to which number of the window prepares are due. Where the view offers nothing that isn't looked at yet, none are, and
/// all of the window is done.
fn last_worthy(order: &Order, sizes: &Sizes, view: u64, is_open: bool, reach: &Reach) -> u64
    requires { KnowsFewRows order.now }
    ensures { Where order.now (λ g facts said. HasSizes g sizes.now.n sizes.now.q → TellsEach reach.now.numbers (reach_of g (ordered_run g facts))
        → prepares_up_to g facts said view result ≡ worthy_prepares_due g facts said view is_open) }
{
    if !is_open {
        return 0;
    }
    let limit = order.window_end();
    if !offers_within(order, view, order.no_prepare_up_to(view), limit) {
        return limit;
    }
    last_added(order, sizes, view, reach)
}

/// Whether a view offers one of the numbers after `from` up to `last`.
fn offers_within(order: &Order, view: u64, from: u64, last: u64) -> bool
    ensures { OnFalse result (Where order.now (λ g facts said. (s : ℕ) → from < s → s ≤ last → offered facts view s ≡ None)) }
{
    for before in from..last {
        if order.offered(view, before + 1).is_some() {
            return true;
        }
    }
    false
}

/// Up to which number of the window all are worth a prepare: as far as the plan goes, or as each number above those ordered
/// without a gap adds something.
fn last_added(order: &Order, sizes: &Sizes, view: u64, reach: &Reach) -> u64
    requires { KnowsFewRows order.now }
    ensures { Where order.now (λ g facts said. HasSizes g sizes.now.n sizes.now.q → TellsEach reach.now.numbers (reach_of g (ordered_run g facts))
        → IsWorthTo g facts view result) }
{
    let start = order.gapless();
    let limit = order.window_end();
    let planned = planned_to(order, view, limit);
    let end = start.max(limit);
    let mut reached = *reach;
    for last in start..end {
        match added(order, sizes, view, last < planned, &reached, last + 1) {
            None => return last.max(planned),
            Some(more) => reached = more,
        }
    }
    end.max(planned)
}

/// The last number of a view's plan, 0 where none is known; no greater than `limit`.
fn planned_to(order: &Order, view: u64, limit: u64) -> u64
    ensures { Where order.now (λ g facts said. result ≡ min (plan_end facts view) limit) }
{
    match order.plan(view) {
        None => 0,
        Some(plan) => plan.base.saturating_add(plan.rows.len() as u64).min(limit),
    }
}

/// How far the rows up to number `s` reach, where it adds something and those before it reach so far. None exactly where it
/// adds nothing. `is_planned`: whether it is no greater than the last number of the view's plan.
fn added(
    order: &Order,
    sizes: &Sizes,
    view: u64,
    is_planned: bool,
    reach: &Reach,
    s: u64,
) -> Option<Reach>
    requires { KnowsFewRows order.now }
    ensures { Where order.now (λ g facts said. HasSizes g sizes.now.n sizes.now.q → is_planned ≡ nat_le s (plan_end facts view) → gapless g facts < s
        → ReachesBefore g facts view s reach.now.numbers → IsAdded g facts view s result) }
{
    let rows = stands_at(order, view, s)?;
    let now = eligible(sizes, rows);
    if !is_more(is_planned, &now, reach, sizes) {
        return None;
    }
    let mut more = *reach;
    more.raise(&now);
    Some(more)
}

/// Whether a number is planned, or reaches further than those before it for one of a group's masters.
fn is_more(is_planned: bool, now: &Reach, before: &Reach, sizes: &Sizes) -> bool
    ensures { result ≡ (is_planned || list_any (λ j. nat_lt (slice_index before.now.numbers j) (slice_index now.now.numbers j)) (numbers_below sizes.now.n)) }
{
    is_planned || now.exceeds(before, sizes.n)
}

/// The rows that stand as number `s` for a follower of a view.
fn stands_at(order: &Order, view: u64, s: u64) -> Option<&Rows>
    requires { KnowsFewRows order.now }
    ensures rows { Where order.now (λ g facts said. option_copied result ≡ standing g facts view s) }
    ensures few { IfSome result (λ rows. length rows.now ≤ MOST_MASTERS) }
{
    match order.offered(view, s) {
        None => order.ordered(s),
        Some(rows) => Some(rows),
    }
}
