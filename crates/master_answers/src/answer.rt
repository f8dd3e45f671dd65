ghost use Rattle.std.specs.Prelude.{◌≡◌, ◌≤◌, ◌<◌, ◌++◌, ◌^◌, ℕ, [], List, Option, OnOk, IfOk, false, length, slice_index};
ghost use Rattle.std.specs.List.{slice_index_or};
ghost use Rattle.message_types.specs.declared.signed.Signed.{Signed as SignedWord};
ghost use Rattle.message_types.specs.declared.body.Body.{Body as Word};
ghost use Rattle.message_types.specs.declared.updates.Update.{Update as Change};
ghost use Rattle.message_types.specs.declared.vouchers.Order.{Order as ClientOrder};
ghost use Rattle.protocol_rules.specs.Group.{Group, is_live};
ghost use Rattle.protocol_rules.specs.Master.{Heard, known_at, taken_at, said_before, answers};
ghost use Rattle.master_knowledge.specs.Knows.{IsCaughtUp};
ghost use Rattle.master_answers.specs.Asked.{ask_of};
ghost use Rattle.master_answers.specs.Replica.{IsReplicaOf, IsReplicaState, HoldsOrders, clients_of, past_at, past_after};

use crate::ask::Ask;
use crate::ask_words::say_asks;
use crate::join::{join_first, join_last};
use crate::order_words::say_orders;
use crate::replica_state::ReplicaState;
use crate::tick_words::say_at_a_tick;
use crate::view_words::say_views;
use crate::{say_gifts, say_vouchers};
use master_knowledge::are_live;
use master_points::Master;
use message_types::Body;
use plain_lists::Want;
use quorum_sets::MOST_CLIENTS;

impl ReplicaState {
    /// All that the master says at an event where it is free to, in the order of the kinds. Its parts must know the
    /// frame taken, be told of the event and have caught up, `points` must be the plant after all updates executed, and
    /// `asked` what the frame asks for; of ticks there must have been 2^32 at most. The words count as said from then on.
    /// After want of memory nothing more can be said of the state.
    pub fn answer(
        &mut self,
        points: &Master,
        asked: Option<Ask>,
        at_tick: bool,
    ) -> Result<Vec<Body>, Want>
        requires replica { IsReplicaState self.old }
        requires few { clients_of points.now ≤ MOST_CLIENTS }
        requires ticks { self.old.knowledge.measure.ticks ≤ 2 ^ 32 }
        requires counts { (c : ℕ) → c < clients_of points.now → slice_index self.old.vouchers.counts c ≤ length (slice_index_or points.now.lists c []) }
        ensures answers { IfOk result (λ bodies. (g : Group) (orders : List Change → ℕ → List ClientOrder) (me : ℕ) (before : List Heard) (took : Option (SignedWord Word))
            → asked ≡ ask_of took
            → IsReplicaOf g me self.old (taken_at before took) (known_at before took) (past_at g before took at_tick) (said_before before)
            → IsCaughtUp g self.old.knowledge (known_at before took)
            → HoldsOrders g orders (known_at before took) points.now
            → bodies.items ≡ answers g orders me before took at_tick) }
        ensures is_replica { IfOk result (λ bodies. (g : Group) (orders : List Change → ℕ → List ClientOrder) (me : ℕ) (before : List Heard) (took : Option (SignedWord Word))
            → asked ≡ ask_of took
            → IsReplicaOf g me self.old (taken_at before took) (known_at before took) (past_at g before took at_tick) (said_before before)
            → IsCaughtUp g self.old.knowledge (known_at before took)
            → HoldsOrders g orders (known_at before took) points.now
            → IsReplicaOf g me self.new (taken_at before took) (known_at before took) (past_after g before took at_tick bodies.items) (said_before before ++ bodies.items)) }
        ensures counts { OnOk result ((c : ℕ) → c < clients_of points.now → slice_index self.new.vouchers.counts c ≡ length (slice_index_or points.now.lists c [])) }
        ensures run { OnOk result (self.new.knowledge.run ≡ self.old.knowledge.run) }
    {
        if are_live(self.knowledge.sizes.rules) {
            return self.answer_alive(points, asked, at_tick);
        }
        self.answer_first(points, at_tick)
    }

    /// The same by the rules first specified.
    fn answer_first(&mut self, points: &Master, at_tick: bool) -> Result<Vec<Body>, Want>
        requires replica { IsReplicaState self.old }
        requires first { is_live self.old.knowledge.preorder.group ≡ false }
        requires few { clients_of points.now ≤ MOST_CLIENTS }
        requires counts { (c : ℕ) → c < clients_of points.now → slice_index self.old.vouchers.counts c ≤ length (slice_index_or points.now.lists c []) }
        ensures answers { IfOk result (λ bodies. (g : Group) (orders : List Change → ℕ → List ClientOrder) (me : ℕ) (before : List Heard) (took : Option (SignedWord Word))
            → IsReplicaOf g me self.old (taken_at before took) (known_at before took) (past_at g before took at_tick) (said_before before)
            → IsCaughtUp g self.old.knowledge (known_at before took)
            → HoldsOrders g orders (known_at before took) points.now
            → bodies.items ≡ answers g orders me before took at_tick) }
        ensures is_replica { IfOk result (λ bodies. (g : Group) (orders : List Change → ℕ → List ClientOrder) (me : ℕ) (before : List Heard) (took : Option (SignedWord Word))
            → IsReplicaOf g me self.old (taken_at before took) (known_at before took) (past_at g before took at_tick) (said_before before)
            → IsCaughtUp g self.old.knowledge (known_at before took)
            → HoldsOrders g orders (known_at before took) points.now
            → IsReplicaOf g me self.new (taken_at before took) (known_at before took) (past_after g before took at_tick bodies.items) (said_before before ++ bodies.items)) }
        ensures counts { OnOk result ((c : ℕ) → c < clients_of points.now → slice_index self.new.vouchers.counts c ≡ length (slice_index_or points.now.lists c [])) }
        ensures run { OnOk result (self.new.knowledge.run ≡ self.old.knowledge.run) }
    {
        let alloc = self.knowledge.alloc;
        let view = self.knowledge.views.view();
        let is_open = self.knowledge.views.is_open();
        let at_a_tick = say_at_a_tick(
            &self.knowledge,
            &mut self.summary,
            &mut self.proposer,
            self.me,
            at_tick,
        )?;
        let requests = self.knowledge.preorder.due()?;
        let orders = say_orders(alloc, &mut self.knowledge.order, view, is_open)?;
        let measures = self.knowledge.measure.due(view, at_tick)?;
        let views = say_views(&mut self.knowledge.views, &self.knowledge.order, view)?;
        let asks = say_asks(
            alloc,
            &mut self.knowledge.asks,
            &self.knowledge.run,
            &self.knowledge.order,
            at_tick,
        )?;
        let gifts = say_gifts(
            alloc,
            &self.knowledge.gifts,
            &self.knowledge.preorder,
            &self.knowledge.order,
            &mut self.knowledge.asks,
        )?;
        let vouchers = say_vouchers(alloc, &mut self.vouchers, points)?;
        let first = join_first(requests, at_a_tick, orders.early, measures, views)?;
        let bodies = join_last(first, asks, gifts, vouchers, orders.late)?;
        Ok(bodies)
    }
}
