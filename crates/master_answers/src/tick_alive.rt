ghost use Rattle.std.specs.Prelude.{◌≡◌, ◌≤◌, ◌++◌, OnOk, IfOk};
ghost use Rattle.protocol_rules.specs.Facts.{facts_of};
ghost use Rattle.protocol_rules.specs.Master.{summaries_due, summary_again_due, whole_preprepares_due};
ghost use Rattle.leader_proposals.specs.Offering.{AreOffersOf};
ghost use Rattle.leader_proposals.specs.Saying.{IsSummaryOf};
ghost use Rattle.master_knowledge.specs.Knows.{Where, IsKnowledge, IsCaughtUp};

use crate::beats::is_slow_beat;
use crate::join::both;
use crate::lead::is_leader;
use crate::vector_of;
use leader_proposals::{Proposer, Summary};
use master_knowledge::Knowledge;
use message_types::Body;
use plain_lists::{Want, extend_option};

/// By the rules that stay alive, at a tick: the summary said last again and the new one of master `me`, which had `now` ticks,
/// and where it leads its offer, once all up to the base of the view's plan is ordered. They count as said from then on.
pub(crate) fn say_at_a_tick_alive(
    knowledge: &Knowledge,
    summary: &mut Summary,
    proposer: &mut Proposer,
    me: u32,
    now: u64,
    at_tick: bool,
) -> Result<Vec<Body>, Want>
    requires known { IsKnowledge knowledge.now }
    requires view { proposer.old.progress.view ≤ knowledge.now.views.view }
    ensures words { IfOk result (λ words. Where knowledge.now (λ g own taken known past said.
        me ≡ own → IsCaughtUp g knowledge.now known → IsSummaryOf g summary.old said → AreOffersOf g proposer.old (facts_of g known) said
        → words.items ≡ (summary_again_due g (facts_of g known) said now at_tick ++ summaries_due g known said at_tick)
        ++ whole_preprepares_due g own known (facts_of g known) said at_tick)) }
    ensures summary { OnOk result (Where knowledge.now (λ g own taken known past said.
        me ≡ own → IsCaughtUp g knowledge.now known → IsSummaryOf g summary.old said
        → IsSummaryOf g summary.new (said ++ (summary_again_due g (facts_of g known) said now at_tick ++ summaries_due g known said at_tick)))) }
    ensures proposer { OnOk result (Where knowledge.now (λ g own taken known past said.
        me ≡ own → AreOffersOf g proposer.old (facts_of g known) said
        → AreOffersOf g proposer.new (facts_of g known) (said ++ whole_preprepares_due g own known (facts_of g known) said at_tick))) }
    ensures view { OnOk result (proposer.new.progress.view ≤ knowledge.now.views.view) }
{
    let view = knowledge.views.view();
    let is_open = knowledge.views.is_open();
    let leads = is_leader(&knowledge.sizes, me, view);
    let vector = vector_of(&knowledge.preorder, knowledge.sizes.n);
    let reach = knowledge.run.reach();
    let again = summary.due_again(&reach, at_tick && is_slow_beat(now))?;
    let summed_up = summary.due(&vector, at_tick)?;
    let offer = proposer.due_whole(
        &knowledge.order,
        &knowledge.matrix,
        leads,
        view,
        is_open,
        at_tick,
    )?;
    let mut words = both(knowledge.alloc, again, summed_up)?;
    extend_option(&mut words, offer)?;
    Ok(words)
}
