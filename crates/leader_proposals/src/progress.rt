ghost use Rattle.std.specs.Prelude.{◌+◌, None, ◌≡◌, ◌≤◌, ◌<◌, ◌++◌, ◌∷◌, [], ℕ, List, Some, max};
ghost use Rattle.message_types.specs.declared.body.Body.{Body as Word};
ghost use Rattle.protocol_rules.specs.declared.facts.OrderFact.{OrderFact as Fact};
ghost use Rattle.protocol_rules.specs.Group.{Group};
ghost use Rattle.protocol_rules.specs.Order.{plan_known};
ghost use Rattle.summary_matrix.specs.Held.{TellsEach};
ghost use Rattle.global_order.specs.OrderState.{HasSizes, Where};
ghost use Rattle.leader_proposals.specs.Counting.{KnowsFewRows, IsSettled, counted_in, number_within, plan_end, reach_to as known_reach};
ghost use Rattle.leader_proposals.specs.Offering.{IsProgressOf};

use crate::counted::{counted, raise_by};
use global_order::Order;
use message_types::Plan;
use protocol_rules::{MOST_NUMBER, WINDOW};
use quorum_sets::Sizes;
use summary_matrix::Reach;

/// How far a leader came in a view.
#[derive(Clone, Copy, PartialEq, Eq)]
pub struct Progress {
    pub view: u64,
    /// The greatest number that it offered in the view, 0 where it offered none.
    pub greatest: u64,
    /// The rows of all numbers up to this one are known.
    pub settled: u64,
    /// How far those rows make the requests of each master eligible.
    pub reach: Reach,
}

impl Progress {
    /// Where nothing was offered in a view, and nothing is settled.
    pub(crate) fn start(view: u64) -> Progress
        ensures view { result.view ≡ view }
        ensures greatest { result.greatest ≡ 0 }
        ensures settled { result.settled ≡ 0 }
        ensures reach { TellsEach result.reach.numbers (λ j. 0) }
    {
        Progress {
            view,
            greatest: 0,
            settled: 0,
            reach: Reach::none(),
        }
    }

    /// The progress in this view or a later one, which begins anew.
    pub(crate) fn in_view(&self, view: u64) -> Progress
        requires { self.now.view ≤ view }
        ensures view { result.view ≡ view }
        ensures kept { (g : Group) (facts : List Fact) (said : List Word) → IsProgressOf g self.now facts said → IsProgressOf g result facts said }
    {
        if self.view == view {
            *self
        } else {
            Progress::start(view)
        }
    }

    /// The number that the leader offers next, where the limits allow it.
    pub(crate) fn next_number(&self, plan: &Plan, stable: u64) -> Option<u64>
        ensures { result ≡ number_within self.now.greatest plan.now stable }
    {
        let planned = plan.base.saturating_add(plan.rows.len() as u64);
        let number = planned.max(self.greatest).saturating_add(1);
        if number > MOST_NUMBER || number.saturating_sub(stable) > WINDOW {
            return None;
        }
        Some(number)
    }

    /// Goes on over the numbers up to `last` whose rows are known without a gap, as far as they go.
    pub(crate) fn settle(&self, order: &Order, plan: &Plan, sizes: &Sizes, last: u64) -> Progress
        requires { KnowsFewRows order.now }
        ensures view { result.view ≡ self.now.view }
        ensures greatest { result.greatest ≡ self.now.greatest }
        ensures limit { result.settled ≤ max self.now.settled last }
        ensures settled { Where order.now (λ g facts ordered. HasSizes g sizes.now.n sizes.now.q → plan_known facts self.now.view ≡ Some plan.now
            → IsSettled g facts self.now.view self.now.settled self.now.reach.numbers
            → IsSettled g facts result.view result.settled result.reach.numbers) }
        ensures far { Where order.now (λ g facts ordered. plan_known facts self.now.view ≡ Some plan.now → result.settled < last
            → counted_in g facts self.now.view (result.settled + 1) ≡ None) }
    {
        let mut reach = self.reach;
        let end = self.settled.max(last);
        for settled in self.settled..end {
            let rows = counted(order, plan, self.view, settled + 1);
            if rows.is_none() {
                return self.settled_at(settled, reach);
            }
            raise_by(&mut reach, sizes, rows);
        }
        self.settled_at(end, reach)
    }

    /// With other numbers settled.
    fn settled_at(&self, settled: u64, reach: Reach) -> Progress
        ensures { result ≡ record self.now { settled = settled; reach = reach } }
    {
        Progress {
            view: self.view,
            greatest: self.greatest,
            settled,
            reach,
        }
    }

    /// How far the known rows of the numbers up to `last` reach.
    pub(crate) fn reach_to(&self, order: &Order, plan: &Plan, sizes: &Sizes, last: u64) -> Reach
        requires { KnowsFewRows order.now }
        ensures { Where order.now (λ g facts ordered. HasSizes g sizes.now.n sizes.now.q → plan_known facts self.now.view ≡ Some plan.now
            → self.now.settled ≤ last → IsSettled g facts self.now.view self.now.settled self.now.reach.numbers
            → TellsEach result.numbers (known_reach g facts self.now.view last)) }
    {
        let mut reach = self.reach;
        for before in self.settled..last {
            let rows = counted(order, plan, self.view, before + 1);
            raise_by(&mut reach, sizes, rows);
        }
        reach
    }

    /// Where one number more was offered.
    pub(crate) fn offer(&self, number: u64) -> Progress
        ensures { result ≡ record self.now { greatest = number } }
    {
        Progress {
            view: self.view,
            greatest: number,
            settled: self.settled,
            reach: self.reach,
        }
    }
}
