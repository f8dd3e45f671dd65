ghost use Rattle.std.specs.Prelude.{◌≡◌, ◌++◌, ◌≤◌, ◌^◌, ◌&&◌, [], false, not, Option, IfOk, IsTrue, OnOk, filter, length, nat_eq, nat_lt, option_map, sum};
ghost use Rattle.std.specs.List.{list_any};
ghost use Rattle.std.specs.Option.{option_to_list};
ghost use Rattle.message_types.specs.declared.signed.Signed.{Signed as SignedWord};
ghost use Rattle.message_types.specs.declared.body.Body.{Body as Word};
ghost use Rattle.message_types.specs.declared.body.Body.TheVariants as body;
ghost use Rattle.protocol_rules.specs.Facts.{facts_of};
ghost use Rattle.protocol_rules.specs.Parts.{Grows};
ghost use Rattle.protocol_rules.specs.Reconcile.{request_gift, order_gift};
ghost use Rattle.protocol_rules.specs.Lacking as rule;
ghost use Rattle.protocol_rules.specs.Master.{is_give, is_order_given};
ghost use Rattle.reconcile.specs.declared.wanted.Wanted.{Wanted as Thing};
ghost use Rattle.reconcile.specs.Asking.{asks as asks_for};
ghost use Rattle.reconcile.specs.AskState.{Says};
ghost use Rattle.reconcile.specs.Shares.{AreSharesOf, things_had};
ghost use Rattle.master_knowledge.specs.Knows.{Where, IsKnowledge};
ghost use Rattle.master_answers.specs.Asked.{ask_of, has_gift, HasRoom, HasRoomFor, answered_by_gift, gives_of, orders_of};

use crate::ask::Ask;
use crate::giving::push_order;
use crate::{GiftsSaid, vector_of};
use master_knowledge::Knowledge;
use message_types::{Body, Give};
use plain_lists::Want;
use quorum_sets::Sizes;
use reconcile::{Asks, Shares, Wanted, gift_certified, note_given};
use std::alloc::Global;
use summary_matrix::reach::leading;

/// What master `me` gives for the ask just taken, where it is another's within that one's share, after `now` ticks.
pub fn gifts_for(
    knowledge: &Knowledge,
    shares: &Shares,
    me: u32,
    asked: Option<Ask>,
    now: u64,
) -> Result<GiftsSaid, Want>
    requires known { IsKnowledge knowledge.now }
    requires ticks { now ≤ 2 ^ 32 }
    ensures gives { IfOk result (λ gifts. Where knowledge.now (λ g own taken known past said. (took : Option (SignedWord Word)) → me ≡ own → asked ≡ ask_of took → AreSharesOf shares.now past.answered
        → gifts.gives.items ≡ filter is_give (rule.gift_due g own known (facts_of g known) past.answered took now))) }
    ensures orders { IfOk result (λ gifts. Where knowledge.now (λ g own taken known past said. (took : Option (SignedWord Word)) → me ≡ own → asked ≡ ask_of took → AreSharesOf shares.now past.answered
        → gifts.orders.items ≡ filter is_order_given (rule.gift_due g own known (facts_of g known) past.answered took now))) }
    ensures room { IfOk result (λ gifts. IsTrue (has_gift gifts.gives.items gifts.orders.items) → HasRoom shares.now asked) }
    ensures gives_ask_nothing { IfOk result (λ gifts. (w : Thing) → list_any (asks_for w) gifts.gives.items ≡ false) }
    ensures orders_ask_nothing { IfOk result (λ gifts. (w : Thing) → list_any (asks_for w) gifts.orders.items ≡ false) }
{
    let Some(ask) = asked else {
        return Ok(no_gifts(knowledge.alloc));
    };
    if !may_have(knowledge, shares, me, ask.signer, now) {
        return Ok(no_gifts(knowledge.alloc));
    }
    let gifts = gifts_of(knowledge, ask.wanted)?;
    Ok(gifts)
}

/// Whether it is another master of the group that may have one more answer.
fn may_have(knowledge: &Knowledge, shares: &Shares, me: u32, asker: u32, now: u64) -> bool
    requires known { IsKnowledge knowledge.now }
    requires ticks { now ≤ 2 ^ 32 }
    ensures within { Where knowledge.now (λ g own taken known past said. me ≡ own → AreSharesOf shares.now past.answered
        → result ≡ (nat_lt asker g.n && not (nat_eq asker own) && nat_lt (length (filter (nat_eq asker) past.answered)) (rule.share g known (facts_of g known) now))) }
    ensures room { IsTrue result → HasRoomFor shares.now asker }
{
    is_other(&knowledge.sizes, me, asker) && shares.has_room(asker, now, things(knowledge))
}

/// Whether it is another master of the group.
fn is_other(sizes: &Sizes, me: u32, asker: u32) -> bool
    ensures { result ≡ (nat_lt asker sizes.now.n && not (nat_eq asker me)) }
{
    asker < sizes.n && asker != me
}

/// What there is to be had: the numbers ordered and the requests certified, without a gap.
fn things(knowledge: &Knowledge) -> u64
    requires { IsKnowledge knowledge.now }
    ensures all { Where knowledge.now (λ g own taken known past said. result ≡ things_had g known (facts_of g known)) }
    ensures few { result ≤ 2 ^ 32 }
{
    let masters = knowledge.sizes.n;
    let vector = vector_of(&knowledge.preorder, masters);
    let requests = total(leading(&vector.numbers, masters as usize));
    knowledge.order.gapless() + requests
}

fn total(numbers: &[u64]) -> u64
    requires { sum numbers.now ≤ 2 ^ 32 }
    ensures { result ≡ sum numbers.now }
{
    numbers.iter().sum()
}

fn no_gifts(alloc: Global) -> GiftsSaid
    ensures gives { result.gives.items ≡ [] }
    ensures orders { result.orders.items ≡ [] }
{
    GiftsSaid {
        gives: Vec::new(alloc),
        orders: Vec::new(alloc),
    }
}

/// What is given of a request or a number, if it is there to give.
fn gifts_of(knowledge: &Knowledge, wanted: Wanted) -> Result<GiftsSaid, Want>
    ensures gives { IfOk result (λ gifts. Where knowledge.now (λ g own taken known past said. gifts.gives.items ≡ gives_of g known wanted)) }
    ensures orders { IfOk result (λ gifts. Where knowledge.now (λ g own taken known past said. gifts.orders.items ≡ orders_of g (facts_of g known) wanted)) }
    ensures gives_ask_nothing { IfOk result (λ gifts. (w : Thing) → list_any (asks_for w) gifts.gives.items ≡ false) }
    ensures orders_ask_nothing { IfOk result (λ gifts. (w : Thing) → list_any (asks_for w) gifts.orders.items ≡ false) }
{
    match wanted {
        Wanted::Request { j, k } => request_given(knowledge, j, k),
        Wanted::Number { s } => number_given(knowledge, s),
    }
}

fn request_given(knowledge: &Knowledge, j: u32, k: u64) -> Result<GiftsSaid, Want>
    ensures gives { IfOk result (λ gifts. Where knowledge.now (λ g own taken known past said. gifts.gives.items ≡ request_gift g known j k)) }
    ensures orders { IfOk result (λ gifts. gifts.orders.items ≡ []) }
    ensures gives_ask_nothing { IfOk result (λ gifts. (w : Thing) → list_any (asks_for w) gifts.gives.items ≡ false) }
{
    let mut gives = Vec::new(knowledge.alloc);
    let gift = gift_certified(&knowledge.gifts, &knowledge.preorder, j, k)?;
    push_give(&mut gives, gift)?;
    Ok(GiftsSaid {
        gives,
        orders: Vec::new(knowledge.alloc),
    })
}

fn number_given(knowledge: &Knowledge, s: u64) -> Result<GiftsSaid, Want>
    ensures gives { IfOk result (λ gifts. gifts.gives.items ≡ []) }
    ensures orders { IfOk result (λ gifts. Where knowledge.now (λ g own taken known past said. gifts.orders.items ≡ order_gift g (facts_of g known) s)) }
    ensures orders_ask_nothing { IfOk result (λ gifts. (w : Thing) → list_any (asks_for w) gifts.orders.items ≡ false) }
{
    let mut orders = Vec::new(knowledge.alloc);
    let whole = knowledge.order.given(s)?;
    push_order(&mut orders, whole)?;
    Ok(GiftsSaid {
        gives: Vec::new(knowledge.alloc),
        orders,
    })
}

fn push_give(bodies: &mut Vec<Body>, gift: Option<Give>) -> Result<(), Want>
    ensures { OnOk result (bodies.new.items ≡ bodies.old.items ++ option_to_list (option_map body.Give gift)) }
{
    if let Some(gift) = gift {
        bodies.push(Body::Give(gift))?;
    }
    Ok(())
}

/// Says what is given: each counts as given from then on, and the ask as answered. After an error the asks are of no more
/// use, as is the master: it is spent.
pub fn count_gifts(
    asks: &mut Asks,
    shares: &mut Shares,
    asked: Option<Ask>,
    gifts: &GiftsSaid,
) -> Result<(), Want>
    requires room { IsTrue (has_gift gifts.now.gives.items gifts.now.orders.items) → HasRoom shares.old asked }
    ensures given { OnOk result (((w : Thing) → list_any (asks_for w) gifts.now.gives.items ≡ false) → ((w : Thing) → list_any (asks_for w) gifts.now.orders.items ≡ false)
        → Says asks.old asks.new (gifts.now.gives.items ++ gifts.now.orders.items)) }
    ensures answered { OnOk result (Grows (AreSharesOf shares.old) (AreSharesOf shares.new) (answered_by_gift asked gifts.now.gives.items gifts.now.orders.items)) }
{
    note_given(asks, &gifts.gives)?;
    note_given(asks, &gifts.orders)?;
    count_answer(shares, asked, gifts);
    Ok(())
}

fn count_answer(shares: &mut Shares, asked: Option<Ask>, gifts: &GiftsSaid)
    requires { IsTrue (has_gift gifts.now.gives.items gifts.now.orders.items) → HasRoom shares.old asked }
    ensures { Grows (AreSharesOf shares.old) (AreSharesOf shares.new) (answered_by_gift asked gifts.now.gives.items gifts.now.orders.items) }
{
    let Some(ask) = asked else {
        return;
    };
    if gives_something(gifts) {
        shares.answer(ask.signer);
    }
}

fn gives_something(gifts: &GiftsSaid) -> bool
    ensures { result ≡ has_gift gifts.now.gives.items gifts.now.orders.items }
{
    !gifts.gives.is_empty() || !gifts.orders.is_empty()
}
