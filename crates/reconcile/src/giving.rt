ghost use Rattle.std.specs.Prelude.{◌≡◌, ◌++◌, ◌∷◌, ℕ, List, [], OnOk, OnErr, IfOk, false, take, option_map};
ghost use Rattle.std.specs.List.{list_any};
ghost use Rattle.std.specs.Option.{option_to_list};
ghost use Rattle.message_types.specs.declared.signed.Signed.{Signed as SignedWord};
ghost use Rattle.message_types.specs.declared.body.Body.{Body as Word};
ghost use Rattle.message_types.specs.declared.body.Body.TheVariants as body;
ghost use Rattle.protocol_rules.specs.Group.{Group};
ghost use Rattle.protocol_rules.specs.Reconcile.{gives_due};
ghost use Rattle.preorder.specs.Index.{HasCertified};
ghost use Rattle.reconcile.specs.declared.wanted.Wanted.{Wanted as Thing};
ghost use Rattle.reconcile.specs.Asking.{asks as asks_for, gives as gives_it};
ghost use Rattle.reconcile.specs.AskState.{AreAsksOf, Says, Where, IsListOfWanted, is_one};
ghost use Rattle.reconcile.specs.GiftState.{AreGiftsOf};
ghost use Rattle.reconcile.specs.Giving.{give_of, given_of, numbers_in, number_in};

use crate::{Asks, Gifts, Wanted};
use message_types::{Body, Give};
use plain_lists::Want;
use preorder::Preorder;
use std::alloc::Global;

/// The gifts due: of each wanted request that is certified.
pub fn gives(
    alloc: Global,
    gifts: &Gifts,
    preorder: &Preorder,
    wanted: &[Wanted],
) -> Result<Vec<Body>, Want>
    ensures due { IfOk result (λ bodies. (g : Group) (me : ℕ) (known : List (SignedWord Word)) (said : List Word)
        → AreGiftsOf g gifts.now known
        → HasCertified g known preorder.now.certificates
        → IsListOfWanted g me known said wanted.now
        → bodies.items ≡ gives_due g me known said) }
    ensures no_asks { IfOk result (λ bodies. (w : Thing) → list_any (asks_for w) bodies.items ≡ false) }
{
    let mut bodies = Vec::new(alloc);
    for one in wanted {
        let gift = gift_wanted(gifts, preorder, *one)?;
        push_gift(&mut bodies, gift)?;
    }
    Ok(bodies)
}

/// The gift of one thing wanted, where it is a certified request.
fn gift_wanted(gifts: &Gifts, preorder: &Preorder, wanted: Wanted) -> Result<Option<Give>, Want>
    ensures { IfOk result (λ gift. (g : Group) (known : List (SignedWord Word))
        → AreGiftsOf g gifts.now known
        → HasCertified g known preorder.now.certificates
        → option_to_list (option_map body.Give gift) ≡ given_of g known wanted) }
{
    match wanted {
        Wanted::Request { j, k } => gift_certified(gifts, preorder, j, k),
        Wanted::Number { .. } => Ok(None),
    }
}

/// The gift of a request, where it is certified.
pub fn gift_certified(
    gifts: &Gifts,
    preorder: &Preorder,
    j: u32,
    k: u64,
) -> Result<Option<Give>, Want>
    ensures { IfOk result (λ gift. (g : Group) (known : List (SignedWord Word))
        → AreGiftsOf g gifts.now known
        → HasCertified g known preorder.now.certificates
        → option_to_list (option_map body.Give gift) ≡ give_of g known j k) }
{
    match preorder.certified(j, k) {
        Some(update) => gifts.give(j, k, update),
        None => Ok(None),
    }
}

fn push_gift(bodies: &mut Vec<Body>, gift: Option<Give>) -> Result<(), Want>
    ensures { OnOk result (bodies.new.items ≡ bodies.old.items ++ option_to_list (option_map body.Give gift)) }
{
    if let Some(gift) = gift {
        bodies.push(Body::Give(gift))?;
    }
    Ok(())
}

/// The global numbers among what is wanted, rising.
pub fn numbers_wanted(alloc: Global, wanted: &[Wanted]) -> Result<Vec<u64>, Want>
    ensures { IfOk result (λ numbers. numbers.items ≡ numbers_in wanted.now) }
{
    let mut numbers = Vec::new(alloc);
    for one in wanted {
        push_number(&mut numbers, *one)?;
    }
    Ok(numbers)
}

fn push_number(numbers: &mut Vec<u64>, wanted: Wanted) -> Result<(), Want>
    ensures { OnOk result (numbers.new.items ≡ numbers.old.items ++ option_to_list (number_in wanted)) }
{
    if let Wanted::Number { s } = wanted {
        numbers.push(s)?;
    }
    Ok(())
}

/// Tells the asks which bodies the master said, none of which asks for anything: what they give isn't wanted
/// any more. After an error they are those of a beginning of the bodies.
pub fn note_given(asks: &mut Asks, bodies: &[Body]) -> Result<(), Want>
    ensures ok { OnOk result (((w : Thing) → list_any (asks_for w) bodies.now ≡ false) → Says asks.old asks.new bodies.now) }
    ensures err { OnErr result (((w : Thing) → list_any (asks_for w) bodies.now ≡ false)
        → Where asks.old (λ g me known said. (count : ℕ) × AreAsksOf g me asks.new known (said ++ take count bodies.now))) }
{
    for body in bodies {
        note_one(asks, body)?;
    }
    Ok(())
}

fn note_one(asks: &mut Asks, body: &Body) -> Result<(), Want>
    ensures ok { OnOk result (((w : Thing) → asks_for w body.now ≡ false) → Says asks.old asks.new (body.now ∷ [])) }
    ensures err { OnErr result (asks.new ≡ asks.old) }
{
    match given_in(body) {
        Some(wanted) => asks.given(&wanted),
        None => Ok(()),
    }
}

/// What a body gives.
fn given_in(body: &Body) -> Option<Wanted>
    ensures { (w : Thing) → gives_it w body.now ≡ is_one result w }
{
    match body {
        Body::Give(give) => Some(Wanted::Request {
            j: give.request.signer,
            k: give.request.body.k,
        }),
        Body::GiveOrdered(give) => Some(Wanted::Number { s: give.s }),
        _ => None,
    }
}
