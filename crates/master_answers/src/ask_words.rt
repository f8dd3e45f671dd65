ghost use Rattle.std.specs.Prelude.{◌≡◌, ◌++◌, ℕ, List, [], IfOk, true, false, if◌then◌else◌};
ghost use Rattle.message_types.specs.declared.signed.Signed.{Signed as SignedWord};
ghost use Rattle.message_types.specs.declared.body.Body.{Body as Word};
ghost use Rattle.protocol_rules.specs.declared.facts.OrderFact.{OrderFact as Fact};
ghost use Rattle.protocol_rules.specs.Group.{Group};
ghost use Rattle.protocol_rules.specs.declared.limits.TheConstants.{MOST_NUMBERS_ASKED, MOST_REQUESTS_ASKED};
ghost use Rattle.protocol_rules.specs.Facts.{facts_of};
ghost use Rattle.protocol_rules.specs.Order.{ordered_run};
ghost use Rattle.protocol_rules.specs.Reconcile.{ask_update_due, ask_order_due};
ghost use Rattle.protocol_rules.specs.Master.{certified_requests, waiting_for, gap_of};
ghost use Rattle.global_order.specs.OrderState.{IsOrderOf};
ghost use Rattle.execution.specs.Ran.{IsRunOf};
ghost use Rattle.reconcile.specs.AskState.{AreAsksOf};
ghost use Rattle.reconcile.specs.AskState as asking_at;
ghost use Rattle.std.specs.List.{list_all, list_any};
ghost use Rattle.reconcile.specs.Again.{asks_again_due};
ghost use Rattle.master_answers.specs.Asked.{is_request};

use crate::lacking_words::Lacking;
use crate::{Split, split_words};
use execution::Run;
use global_order::Order;
use plain_lists::Want;
use protocol_rules::{MOST_NUMBERS_ASKED, MOST_REQUESTS_ASKED};
use reconcile::Asks;
use std::alloc::Global;

/// The most of each that are asked for at a tick.
const MOST_REQUESTS: usize = MOST_REQUESTS_ASKED as usize;

const MOST_NUMBERS: usize = MOST_NUMBERS_ASKED as usize;

/// At a tick, the ask for the request whose certificate the execution waits for, and apart the one for the first number
/// that is missing. They count as said from then on.
pub(crate) fn say_asks(
    alloc: Global,
    asks: &mut Asks,
    run: &Run,
    order: &Order,
    at_tick: bool,
) -> Result<Split, Want>
    ensures early { IfOk result (λ words. (g : Group) (me : ℕ) (known : List (SignedWord Word)) (facts : List Fact) (ordered said : List Word)
        → IsRunOf g run.now (certified_requests g known) (ordered_run g (facts_of g known)) → IsOrderOf g order.now facts ordered → AreAsksOf g me asks.old known said
        → words.early.items ≡ ask_update_due said at_tick (waiting_for g known)) }
    ensures late { IfOk result (λ words. (g : Group) (me : ℕ) (known : List (SignedWord Word)) (facts : List Fact) (ordered said : List Word)
        → IsRunOf g run.now (certified_requests g known) (ordered_run g (facts_of g known)) → IsOrderOf g order.now facts ordered → AreAsksOf g me asks.old known said
        → words.late.items ≡ ask_order_due said at_tick (gap_of g facts)) }
    ensures said { IfOk result (λ words. (g : Group) (me : ℕ) (known : List (SignedWord Word)) (facts : List Fact) (ordered said : List Word)
        → IsRunOf g run.now (certified_requests g known) (ordered_run g (facts_of g known)) → IsOrderOf g order.now facts ordered → AreAsksOf g me asks.old known said
        → AreAsksOf g me asks.new known (said ++ (words.early.items ++ words.late.items))) }
{
    let words = asks.due(at_tick, run.waiting_for(), order.gap())?;
    let split = split_words(alloc, words)?;
    Ok(split)
}

/// By the rules that stay alive, at a tick: asks for what is lacking, for requests and apart for numbers. They count as said
/// from then on.
pub(crate) fn say_asks_alive(
    alloc: Global,
    asks: &mut Asks,
    lacking: &Lacking,
    now: u64,
    at_tick: bool,
) -> Result<Split, Want>
    requires requests { list_all is_request lacking.now.requests.items ≡ true }
    requires numbers { list_any is_request lacking.now.numbers.items ≡ false }
    ensures early { IfOk result (λ words. asking_at.Where asks.old (λ g me known said.
        words.early.items ≡ (if at_tick then asks_again_due said now lacking.now.requests.items MOST_REQUESTS_ASKED else []))) }
    ensures late { IfOk result (λ words. asking_at.Where asks.old (λ g me known said.
        words.late.items ≡ (if at_tick then asks_again_due said now lacking.now.numbers.items MOST_NUMBERS_ASKED else []))) }
    ensures said { IfOk result (λ words. asking_at.Says asks.old asks.new (words.early.items ++ words.late.items)) }
{
    if !at_tick {
        return Ok(Split {
            early: Vec::new(alloc),
            late: Vec::new(alloc),
        });
    }
    let early = asks.due_again(now, &lacking.requests, MOST_REQUESTS)?;
    let late = asks.due_again(now, &lacking.numbers, MOST_NUMBERS)?;
    Ok(Split { early, late })
}
