ghost use Rattle.std.specs.Prelude.{◌≡◌, ◌≤◌, ◌++◌, ℕ, List, [], OnOk, OnErr, IfOk, nat_eq};
ghost use Rattle.std.specs.Option.{option_to_list};
ghost use Rattle.message_types.specs.declared.signed.Signed.{Signed as SignedWord};
ghost use Rattle.message_types.specs.declared.body.Body.{Body as Word};
ghost use Rattle.protocol_rules.specs.declared.facts.OrderFact.{OrderFact as Fact};
ghost use Rattle.protocol_rules.specs.Group.{Group, group_of, leader_of};
ghost use Rattle.protocol_rules.specs.Views.{view as view_of, is_open as is_open_view};
ghost use Rattle.protocol_rules.specs.Master.{preprepares_due, whole_preprepares_due};
ghost use Rattle.summary_matrix.specs.Held.{IsMatrixOf};
ghost use Rattle.global_order.specs.OrderState.{IsOrderOf};
ghost use Rattle.leader_proposals.specs.Counting.{KnowsFewRows};
ghost use Rattle.leader_proposals.specs.Offering.{AreOffersOf};

use crate::counted::{is_whole, plan_to_offer};
use crate::progress::Progress;
use global_order::Order;
use message_types::{Body, PrePrepare};
use plain_lists::Want;
use quorum_sets::Sizes;
use std::marker::Model;
use summary_matrix::Matrix;

/// What a master offered as a leader, in the present view.
pub struct Proposer {
    sizes: Sizes,
    progress: Progress,
}

// Taken apart here once, so that no crate above proves it again.
impl Drop for Proposer {
    fn drop(self) {
        let Proposer {
            sizes: _,
            progress: _,
        } = self;
    }
}

impl Model for Proposer {
    ghost use Rattle.leader_proposals.specs.Offering.{Offered};

    ghost Value = { Offered };

    ghost view = { λ o. record { masters = o.sizes.n; quorum = o.sizes.q; progress = o.progress } };
}

impl Proposer {
    /// Where nothing is known and nothing was said.
    pub fn new(sizes: Sizes) -> Proposer
        ensures view { result.progress.view ≡ 0 }
        ensures nothing { (clients : ℕ) → AreOffersOf (group_of sizes clients) result [] [] }
    {
        Proposer {
            sizes,
            progress: Progress::start(0),
        }
    }

    /// What the master offers at an event, where it knows what `order` and `matrix` hold and the present view is
    /// `view`: at a tick the leader of an open view offers the next number, where there is more to offer. It counts as
    /// said from then on.
    pub fn due(
        &mut self,
        order: &Order,
        matrix: &Matrix,
        leads: bool,
        view: u64,
        is_open: bool,
        at_tick: bool,
    ) -> Result<Option<Body>, Want>
        requires view { self.old.progress.view ≤ view }
        requires rows { KnowsFewRows order.now }
        ensures due { IfOk result (λ answer. (g : Group) (me : ℕ) (known : List (SignedWord Word)) (facts : List Fact) (ordered said : List Word)
            → IsOrderOf g order.now facts ordered → IsMatrixOf g matrix.now known → view ≡ view_of g known → is_open ≡ is_open_view g known → leads ≡ nat_eq me (leader_of g view)
            → AreOffersOf g self.old facts said
            → option_to_list answer ≡ preprepares_due g me known facts said at_tick) }
        ensures said { IfOk result (λ answer. (g : Group) (facts : List Fact) (ordered said : List Word) → IsOrderOf g order.now facts ordered → AreOffersOf g self.old facts said
            → AreOffersOf g self.new facts (said ++ option_to_list answer)) }
        ensures view { OnOk result (self.new.progress.view ≤ view) }
        ensures refused { OnErr result (self.new ≡ self.old) }
    {
        let Some(plan) = plan_to_offer(order, view, leads, is_open, at_tick) else {
            return Ok(None);
        };
        let present = self.progress.in_view(view);
        let Some(number) = present.next_number(plan, order.stable()) else {
            return Ok(None);
        };
        let settled = present.settle(order, plan, &self.sizes, number - 1);
        let reach = settled.reach_to(order, plan, &self.sizes, number - 1);
        match matrix.proposal(&reach)? {
            None => {
                self.progress = settled;
                Ok(None)
            }
            Some(frames) => {
                self.progress = settled.offer(number);
                Ok(Some(Body::PrePrepare(PrePrepare {
                    v: view,
                    s: number,
                    frames,
                })))
            }
        }
    }

    /// What the master offers at an event by the rules that stay alive: as `due` has it, once all up to the base of the
    /// view's plan is ordered.
    pub fn due_whole(
        &mut self,
        order: &Order,
        matrix: &Matrix,
        leads: bool,
        view: u64,
        is_open: bool,
        at_tick: bool,
    ) -> Result<Option<Body>, Want>
        requires view { self.old.progress.view ≤ view }
        requires rows { KnowsFewRows order.now }
        ensures due { IfOk result (λ answer. (g : Group) (me : ℕ) (known : List (SignedWord Word)) (facts : List Fact) (ordered said : List Word)
            → IsOrderOf g order.now facts ordered → IsMatrixOf g matrix.now known → view ≡ view_of g known → is_open ≡ is_open_view g known → leads ≡ nat_eq me (leader_of g view)
            → AreOffersOf g self.old facts said
            → option_to_list answer ≡ whole_preprepares_due g me known facts said at_tick) }
        ensures said { IfOk result (λ answer. (g : Group) (facts : List Fact) (ordered said : List Word) → IsOrderOf g order.now facts ordered → AreOffersOf g self.old facts said
            → AreOffersOf g self.new facts (said ++ option_to_list answer)) }
        ensures view { OnOk result (self.new.progress.view ≤ view) }
        ensures refused { OnErr result (self.new ≡ self.old) }
    {
        if !is_whole(order, view) {
            return Ok(None);
        }
        let word = self.due(order, matrix, leads, view, is_open, at_tick)?;
        Ok(word)
    }
}
