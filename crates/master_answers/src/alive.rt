ghost use Rattle.std.specs.Prelude.{◌≡◌, ◌≤◌, ◌<◌, ◌++◌, ◌^◌, ℕ, [], List, Option, OnOk, IfOk, true, length, slice_index};
ghost use Rattle.std.specs.List.{slice_index_or};
ghost use Rattle.message_types.specs.declared.signed.Signed.{Signed as SignedWord};
ghost use Rattle.message_types.specs.declared.body.Body.{Body as Word};
ghost use Rattle.message_types.specs.declared.updates.Update.{Update as Change};
ghost use Rattle.message_types.specs.declared.vouchers.Order.{Order as ClientOrder};
ghost use Rattle.protocol_rules.specs.Group.{Group, is_live};
ghost use Rattle.protocol_rules.specs.Master.{Heard, known_at, taken_at, said_before, answers};
ghost use Rattle.master_knowledge.specs.Knows.{IsCaughtUp};
ghost use Rattle.master_answers.specs.Asked.{ask_of};
ghost use Rattle.master_answers.specs.Replica.{IsReplicaOf, IsReplicaState, HoldsOrders, clients_of, past_at, past_after};

use crate::ask::Ask;
use crate::ask_words::say_asks_alive;
use crate::beats::is_slow_beat;
use crate::join::{join_first, join_last};
use crate::lacking_words::lacking_at;
use crate::order_words::say_orders_alive;
use crate::replica_state::ReplicaState;
use crate::tick_alive::say_at_a_tick_alive;
use crate::view_words::say_views;
use crate::{count_gifts, gifts_for, say_vouchers};
use master_points::Master;
use message_types::Body;
use plain_lists::Want;
use quorum_sets::MOST_CLIENTS;

impl ReplicaState {
    /// All that the master says at an event by the rules that stay alive, as `answer` has it.
    pub(crate) fn answer_alive(
        &mut self,
        points: &Master,
        asked: Option<Ask>,
        at_tick: bool,
    ) -> Result<Vec<Body>, Want>
        requires replica { IsReplicaState self.old }
        requires alive { is_live self.old.knowledge.preorder.group ≡ true }
        requires few { clients_of points.now ≤ MOST_CLIENTS }
        requires ticks { self.old.knowledge.measure.ticks ≤ 2 ^ 32 }
        requires counts { (c : ℕ) → c < clients_of points.now → slice_index self.old.vouchers.counts c ≤ length (slice_index_or points.now.lists c []) }
        ensures answers { IfOk result (λ bodies. (g : Group) (orders : List Change → ℕ → List ClientOrder) (me : ℕ) (before : List Heard) (took : Option (SignedWord Word))
            → asked ≡ ask_of took
            → IsReplicaOf g me self.old (taken_at before took) (known_at before took) (past_at g before took at_tick) (said_before before)
            → IsCaughtUp g self.old.knowledge (known_at before took)
            → HoldsOrders g orders (known_at before took) points.now
            → bodies.items ≡ answers g orders me before took at_tick) }
        ensures is_replica { IfOk result (λ bodies. (g : Group) (orders : List Change → ℕ → List ClientOrder) (me : ℕ) (before : List Heard) (took : Option (SignedWord Word))
            → asked ≡ ask_of took
            → IsReplicaOf g me self.old (taken_at before took) (known_at before took) (past_at g before took at_tick) (said_before before)
            → IsCaughtUp g self.old.knowledge (known_at before took)
            → HoldsOrders g orders (known_at before took) points.now
            → IsReplicaOf g me self.new (taken_at before took) (known_at before took) (past_after g before took at_tick bodies.items) (said_before before ++ bodies.items)) }
        ensures counts { OnOk result ((c : ℕ) → c < clients_of points.now → slice_index self.new.vouchers.counts c ≡ length (slice_index_or points.now.lists c [])) }
        ensures run { OnOk result (self.new.knowledge.run ≡ self.old.knowledge.run) }
    {
        let alloc = self.knowledge.alloc;
        let now = self.knowledge.measure.ticks();
        let waiting = self.knowledge.waiting();
        let gifts = gifts_for(&self.knowledge, &self.shares, self.me, asked, now)?;
        let lacking = lacking_at(&self.knowledge, waiting, now, at_tick)?;
        let at_a_tick = say_at_a_tick_alive(
            &self.knowledge,
            &mut self.summary,
            &mut self.proposer,
            self.me,
            now,
            at_tick,
        )?;
        let done = self.knowledge.run.counts();
        let is_beat = at_tick && is_slow_beat(now);
        let requests = self.knowledge.preorder.due_in_turn(done, is_beat)?;
        let view = self.knowledge.views.view();
        let is_open = self.knowledge.views.is_open();
        let reach = self.knowledge.run.reach();
        let (sizes, order) = (&self.knowledge.sizes, &mut self.knowledge.order);
        let orders = say_orders_alive(alloc, order, sizes, view, is_open, &reach)?;
        let votes = self.knowledge.patience.due(view, waiting, now, at_tick)?;
        let views = say_views(&mut self.knowledge.views, &self.knowledge.order, view)?;
        let asks = say_asks_alive(alloc, &mut self.knowledge.asks, &lacking, now, at_tick)?;
        count_gifts(&mut self.knowledge.asks, &mut self.shares, asked, &gifts)?;
        let vouchers = say_vouchers(alloc, &mut self.vouchers, points)?;
        let first = join_first(requests, at_a_tick, orders.early, votes, views)?;
        let bodies = join_last(first, asks, gifts, vouchers, orders.late)?;
        Ok(bodies)
    }
}
