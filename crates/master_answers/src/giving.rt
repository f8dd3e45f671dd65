ghost use Rattle.std.specs.Prelude.{◌≡◌, ◌++◌, ℕ, List, IfOk, OnOk, false, option_map};
ghost use Rattle.std.specs.List.{list_any};
ghost use Rattle.std.specs.Option.{option_to_list};
ghost use Rattle.message_types.specs.declared.signed.Signed.{Signed as SignedWord};
ghost use Rattle.message_types.specs.declared.body.Body.{Body as Word};
ghost use Rattle.message_types.specs.declared.body.Body.TheVariants as body;
ghost use Rattle.protocol_rules.specs.declared.facts.OrderFact.{OrderFact as Fact};
ghost use Rattle.protocol_rules.specs.Group.{Group};
ghost use Rattle.protocol_rules.specs.Reconcile.{gives_due, gives_ordered_due};
ghost use Rattle.preorder.specs.Index.{HasCertified};
ghost use Rattle.reconcile.specs.declared.wanted.Wanted.{Wanted as Thing};
ghost use Rattle.reconcile.specs.Asking.{asks as asks_for};
ghost use Rattle.reconcile.specs.AskState.{AreAsksOf, Where, IsListOfWanted};
ghost use Rattle.global_order.specs.OrderState.{IsOrderOf};
ghost use Rattle.reconcile.specs.GiftState.{AreGiftsOf};

use global_order::Order;
use message_types::{Body, GiveOrdered};
use plain_lists::Want;
use preorder::Preorder;
use reconcile::{Asks, Gifts, Wanted, gives, note_given, numbers_wanted};
use std::alloc::Global;

/// What a master gives at an event: requests with their certificates, and whole orders.
#[derive(Drop)]
pub struct GiftsSaid {
    pub gives: Vec<Body>,
    pub orders: Vec<Body>,
}

/// Gives what others want and the master has: each counts as given from then on. After an error the asks are of no more
/// use, as is the master: it is spent.
pub fn say_gifts(
    alloc: Global,
    gifts: &Gifts,
    preorder: &Preorder,
    order: &Order,
    asks: &mut Asks,
) -> Result<GiftsSaid, Want>
    ensures gives { IfOk result (λ words. (g : Group) (me : ℕ) (known : List (SignedWord Word)) (said : List Word)
        → AreGiftsOf g gifts.now known
        → HasCertified g known preorder.now.certificates
        → AreAsksOf g me asks.old known said
        → words.gives.items ≡ gives_due g me known said) }
    ensures orders { IfOk result (λ words. (g : Group) (me : ℕ) (known : List (SignedWord Word)) (facts : List Fact) (ordered said : List Word)
        → AreGiftsOf g gifts.now known
        → HasCertified g known preorder.now.certificates
        → IsOrderOf g order.now facts ordered
        → AreAsksOf g me asks.old known said
        → words.orders.items ≡ gives_ordered_due g me known facts said) }
    ensures given { IfOk result (λ words. Where asks.old (λ g me known said.
        AreAsksOf g me asks.new known ((said ++ words.gives.items) ++ words.orders.items))) }
    ensures gives_ask_nothing { IfOk result (λ words. (w : Thing) → list_any (asks_for w) words.gives.items ≡ false) }
    ensures orders_ask_nothing { IfOk result (λ words. (w : Thing) → list_any (asks_for w) words.orders.items ≡ false) }
{
    let wanted = asks.wanted()?;
    let requests = gives(alloc, gifts, preorder, &wanted)?;
    let orders = whole_orders(alloc, order, &wanted)?;
    note_given(asks, &requests)?;
    note_given(asks, &orders)?;
    Ok(GiftsSaid {
        gives: requests,
        orders,
    })
}

/// The whole orders due: of each wanted number that is ordered.
fn whole_orders(alloc: Global, order: &Order, wanted: &[Wanted]) -> Result<Vec<Body>, Want>
    ensures due { IfOk result (λ bodies. (g : Group) (me : ℕ) (known : List (SignedWord Word)) (facts : List Fact) (ordered said : List Word)
        → IsOrderOf g order.now facts ordered
        → IsListOfWanted g me known said wanted.now
        → bodies.items ≡ gives_ordered_due g me known facts said) }
    ensures no_asks { IfOk result (λ bodies. (w : Thing) → list_any (asks_for w) bodies.items ≡ false) }
{
    let numbers = numbers_wanted(alloc, wanted)?;
    let mut bodies = Vec::new(alloc);
    for s in &numbers {
        let whole = order.given(*s)?;
        push_order(&mut bodies, whole)?;
    }
    Ok(bodies)
}

pub(crate) fn push_order(bodies: &mut Vec<Body>, whole: Option<GiveOrdered>) -> Result<(), Want>
    ensures { OnOk result (bodies.new.items ≡ bodies.old.items ++ option_to_list (option_map body.GiveOrdered whole)) }
{
    if let Some(whole) = whole {
        bodies.push(Body::GiveOrdered(whole))?;
    }
    Ok(())
}
