ghost use Rattle.std.specs.Prelude.{◌≡◌, ◌++◌, ◌∷◌, ◌<◌, ◌≤◌, ◌^◌, [], OnOk, true, map};
ghost use Rattle.message_types.specs.Parts.{parts};
ghost use Rattle.protocol_rules.specs.Group.{group_of, is_live};
ghost use Rattle.protocol_rules.specs.Patience.{wait};
ghost use Rattle.protocol_rules.specs.Master.{waits};
ghost use Rattle.master_knowledge.specs.Past.{no_past, past_with};
ghost use Rattle.master_knowledge.specs.Whole.{is_whole};
ghost use Rattle.master_knowledge.specs.Knows.{Knows, Learns, Where, IsKnowledge, IsCaughtUp, ordered_reach};

use crate::certificate::take_certificate_part;
use crate::gift_words::take_gift_part;
use crate::measure_words::{take_measure_part, tell_measure};
use crate::numbers::take_numbers;
use crate::order_words::{take_furthest_part, take_order_part};
use crate::requests::{take_request_part, take_update};
use crate::summaries::take_summary_part;
use crate::view_words::take_view_part;
use crate::wait_words::see_wait;
use execution::Run;
use global_order::Order;
use lacking::{Furthest, ShownBefore};
use leader_patience::Patience;
use leader_wait::wait::LeaderWait;
use message_types::{Frame, parts_of};
use plain_lists::Want;
use preorder::Preorder;
use quorum_sets::{MOST_CLIENTS, Sizes};
use reconcile::{Asks, Gifts};
use std::alloc::Global;
use summary_matrix::Matrix;
use suspect_leader::Measure;
use view_change::Views;

/// All that one master keeps of what it knows.
pub struct Knowledge {
    pub alloc: Global,
    pub sizes: Sizes,
    pub preorder: Preorder,
    pub matrix: Matrix,
    pub order: Order,
    pub run: Run,
    pub views: Views,
    pub measure: Measure,
    pub patience: Patience,
    pub wait: LeaderWait,
    pub furthest: Furthest,
    pub earlier: ShownBefore,
    pub asks: Asks,
    pub gifts: Gifts,
}

// Taken apart here once: what holds it lets go of it by one call.
impl Drop for Knowledge {
    fn drop(self) {
        let Knowledge {
            alloc: _,
            sizes: _,
            preorder: _,
            matrix: _,
            order: _,
            run: _,
            views: _,
            measure: _,
            patience: _,
            wait: _,
            furthest: _,
            earlier: _,
            asks: _,
            gifts: _,
        } = self;
    }
}

impl Knowledge {
    /// The knowledge of master `me` that heard and said nothing yet.
    pub fn new(alloc: Global, sizes: Sizes, clients: u32, me: u32) -> Knowledge
        requires { clients ≤ MOST_CLIENTS }
        ensures { Knows (group_of sizes clients) me result [] [] no_past [] }
    {
        Knowledge {
            alloc,
            sizes,
            preorder: Preorder::new(alloc, sizes, clients, me),
            matrix: Matrix::new(alloc, sizes),
            order: Order::new(alloc, sizes),
            run: Run::new(alloc, sizes, clients),
            views: Views::new(alloc, sizes, me),
            measure: Measure::new(alloc, sizes, me),
            patience: Patience::new(alloc, sizes),
            wait: LeaderWait::new(alloc, sizes),
            furthest: Furthest::new(sizes),
            earlier: ShownBefore::new(),
            asks: Asks::new(alloc, sizes, me),
            gifts: Gifts::new(alloc, sizes),
        }
    }

    /// Learns a frame that came to the master, with all its parts. After want of memory the knowledge is of no use.
    pub fn hear(&mut self, frame: &Frame) -> Result<(), Want>
        requires known { IsKnowledge self.old }
        requires whole { is_whole self.old.preorder.group frame.now ≡ true }
        ensures { OnOk result (Where self.old (λ g me taken known past said.
            Knows g me self.new (taken ++ frame.now ∷ []) (known ++ parts frame.now) past said)) }
    {
        take_update(&mut self.preorder, frame)?;
        self.recall(frame)
    }

    /// Learns a frame that the master said itself, with all its parts.
    pub fn recall(&mut self, frame: &Frame) -> Result<(), Want>
        requires known { IsKnowledge self.old }
        requires whole { is_whole self.old.preorder.group frame.now ≡ true }
        ensures { OnOk result (Learns self.old self.new (parts frame.now)) }
    {
        let parts = parts_of(self.alloc, frame)?;
        for part in &parts {
            self.learn(part)?;
        }
        Ok(())
    }

    /// Has the execution take the rows of all numbers that are ordered without a gap.
    pub fn catch_up(&mut self) -> Result<(), Want>
        requires { IsKnowledge self.old }
        ensures knows { OnOk result (Where self.old (λ g me taken known past said. Knows g me self.new taken known past said)) }
        ensures caught { OnOk result (Where self.old (λ g me taken known past said. IsCaughtUp g self.new known)) }
    {
        take_numbers(&mut self.run, &self.order)
    }

    /// Whether the master waits for its leader: its view isn't open, or its summaries make more eligible than is
    /// ordered without a gap.
    pub fn waits(&self) -> bool
        ensures { Where self.now (λ g me taken known past said. IsCaughtUp g self.now known → result ≡ waits g known) }
    {
        !self.views.is_open() || self.matrix.exceeds(&self.run.reach())
    }

    /// How long the master waits for its leader, in ticks, in the view of its last event, once it has caught up. Only the wait
    /// itself may be kept otherwise from then on, and it stays what it was of.
    pub fn waiting(&mut self) -> u64
        ensures waiting { Where self.old (λ g me taken known past said. is_live g ≡ true → IsCaughtUp g self.old known
            → result ≡ wait g self.old.wait.view (ordered_reach g known) past.moments) }
        ensures knows { Where self.old (λ g me taken known past said. IsCaughtUp g self.old known → Knows g me self.new taken known past said) }
        ensures others { self.new ≡ record self.old { wait = self.new.wait } }
    {
        let reach = self.run.reach();
        self.wait.ticks(&reach)
    }

    /// Is told of an event, once all is known and executed that the master goes by at it.
    pub fn tell(&mut self, at_tick: bool) -> Result<(), Want>
        requires known { IsKnowledge self.old }
        requires ticks { at_tick ≡ true → self.old.measure.ticks < 2 ^ 32 }
        ensures told { OnOk result (Where self.old (λ g me taken known past said. IsCaughtUp g self.old known
            → Knows g me self.new taken known (past_with g known at_tick past) said)) }
        ensures run { OnOk result (self.new.run ≡ self.old.run) }
    {
        let view = self.views.view();
        let waits = self.waits();
        tell_measure(&mut self.measure, at_tick, view, waits)?;
        let shown = self.matrix.shown();
        self.earlier.see(self.measure.ticks(), at_tick, &shown);
        let eligible = self.matrix.eligible();
        see_wait(&mut self.wait, self.sizes.rules, at_tick, view, &eligible)
    }

    /// Learns one part.
    fn learn(&mut self, part: &Frame) -> Result<(), Want>
        requires known { IsKnowledge self.old }
        requires whole { is_whole self.old.preorder.group part.now ≡ true }
        ensures { OnOk result (Learns self.old self.new (part.now ∷ [])) }
    {
        take_request_part(&mut self.preorder, part)?;
        take_certificate_part(&mut self.run, &self.preorder, part)?;
        take_summary_part(&mut self.matrix, part)?;
        take_order_part(self.alloc, &self.sizes, &mut self.order, part)?;
        take_furthest_part(&mut self.furthest, part);
        take_view_part(&mut self.views, part)?;
        take_measure_part(&mut self.measure, self.sizes.rules, part)?;
        self.patience.take(part.signer, &part.body);
        self.asks.take(part.signer, &part.body)?;
        take_gift_part(&mut self.gifts, part)
    }
}
