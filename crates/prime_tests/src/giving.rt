ghost use Rattle.std.specs.Prelude.{◌≡◌, ◌<◌, OnOk, IfOk};

use message_types::{
    AskOrder, AskUpdate, Body, Give, Op, PoAck, PoRequest, Signed, Update, update_digest,
};
use plain_lists::{Bytes, Want};
use preorder::Preorder;
use quorum_sets::Sizes;
use reconcile::{Asks, Gifts, gives, note_given, numbers_wanted};
use std::alloc::Global;
use std::test::Fail;

const REQUESTED: Update = Update {
    client: 0,
    t: 1,
    op: Op::Ack { alarm: 0 },
};

/// A master's part in giving.
#[derive(Drop)]
struct Giver {
    preorder: Preorder,
    gifts: Gifts,
    asks: Asks,
}

/// Master 0 where no word is known.
fn knowing_nothing(alloc: Global, sizes: Sizes) -> Giver
    ensures { result.preorder.group.n ≡ sizes.n }
{
    Giver {
        preorder: Preorder::new(alloc, sizes, 1, 0),
        gifts: Gifts::new(alloc, sizes),
        asks: Asks::new(alloc, sizes, 0),
    }
}

fn signed_update(alloc: Global) -> Result<Signed<Update>, Want> {
    let sig = Bytes::from_slice(alloc, &[])?;
    Ok(Signed {
        signer: 9,
        body: REQUESTED,
        sig,
    })
}

/// Request number 1 of master 1.
fn request(alloc: Global) -> Result<Signed<PoRequest>, Want>
    ensures signer { IfOk result (λ f. f.signer ≡ 1) }
    ensures number { IfOk result (λ f. f.body.k ≡ 1) }
{
    let sig = Bytes::from_slice(alloc, &[])?;
    let update = signed_update(alloc)?;
    Ok(Signed {
        signer: 1,
        body: PoRequest { k: 1, update },
        sig,
    })
}

/// A master's acknowledgement of it, signed with one byte.
fn ack(alloc: Global, signer: u32, byte: u8) -> Result<Signed<PoAck>, Want>
    ensures signer { IfOk result (λ f. f.signer ≡ signer) }
    ensures master { IfOk result (λ f. f.body.j ≡ 1) }
{
    let digest = update_digest(&REQUESTED);
    let sig = Bytes::from_slice(alloc, &[byte])?;
    Ok(Signed {
        signer,
        body: PoAck { j: 1, k: 1, digest },
        sig,
    })
}

fn take_ack(alloc: Global, giver: &mut Giver, signer: u32, byte: u8) -> Result<(), Want>
    requires masters { giver.old.preorder.group.n ≡ 4 }
    requires signer { signer < 4 }
    ensures { OnOk result (giver.new.preorder.group.n ≡ 4) }
{
    let frame = ack(alloc, signer, byte)?;
    giver.preorder.take_ack(&frame)?;
    giver.gifts.take_ack(&frame)
}

#[tactic(auto, unfolding(protocol_rules::specs::Group::most_number))]
fn take_request(alloc: Global, giver: &mut Giver) -> Result<(), Want>
    requires masters { giver.old.preorder.group.n ≡ 4 }
{
    let frame = request(alloc)?;
    giver.preorder.take_request(&frame)?;
    giver.gifts.take_request(&frame)
}

/// Has a giver take the request and acknowledgements of all four masters, of master 1 two.
fn certify(alloc: Global, giver: &mut Giver) -> Result<(), Want>
    requires masters { giver.old.preorder.group.n ≡ 4 }
{
    take_ack(alloc, giver, 3, 13)?;
    take_ack(alloc, giver, 1, 11)?;
    take_ack(alloc, giver, 1, 21)?;
    take_ack(alloc, giver, 2, 12)?;
    take_ack(alloc, giver, 0, 10)?;
    take_request(alloc, giver)
}

fn gifts_due(alloc: Global, giver: &mut Giver) -> Result<Vec<Body>, Want> {
    let wanted = giver.asks.wanted()?;
    let bodies = gives(alloc, &giver.gifts, &giver.preorder, &wanted)?;
    note_given(&mut giver.asks, &bodies)?;
    Ok(bodies)
}

/// The signer and the signature's byte of each acknowledgement that is given where master 3 asks for the request.
fn acks_given(alloc: Global, giver: &mut Giver) -> Result<Vec<(u32, u8)>, Want> {
    let ask = Body::AskUpdate(AskUpdate { j: 1, k: 1 });
    giver.asks.take(3, &ask)?;
    let bodies = gifts_due(alloc, giver)?;
    acks_in(alloc, &bodies)
}

fn acks_in(alloc: Global, bodies: &[Body]) -> Result<Vec<(u32, u8)>, Want> {
    let mut acks = Vec::new(alloc);
    for body in bodies {
        if let Body::Give(give) = body {
            push_acks(&mut acks, give)?;
        }
    }
    Ok(acks)
}

fn push_acks(acks: &mut Vec<(u32, u8)>, give: &Give) -> Result<(), Want> {
    for ack in give.acks.as_slice() {
        acks.push((ack.signer, first_byte(&ack.sig)))?;
    }
    Ok(())
}

fn first_byte(sig: &Bytes) -> u8 {
    match sig.as_slice() {
        [byte, ..] => *byte,
        [] => 0,
    }
}

/// What is wanted where master 1 asks for number 7: how much it is, and its numbers.
fn still_wanted(alloc: Global, giver: &mut Giver) -> Result<(usize, Vec<u64>), Want> {
    let ask = Body::AskOrder(AskOrder { s: 7 });
    giver.asks.take(1, &ask)?;
    let wanted = giver.asks.wanted()?;
    let numbers = numbers_wanted(alloc, &wanted)?;
    Ok((wanted.len(), numbers))
}

#[test]
fn lowest_masters_first_acks_are_given_once(rt: HostRuntime) -> Result<(), Fail> {
    let sizes = Sizes::new(1, 0)?;
    assert_eq!(rt; sizes.n, 4);
    let mut giver = knowing_nothing(rt.alloc(), sizes);
    certify(rt.alloc(), &mut giver)?;
    let acks = acks_given(rt.alloc(), &mut giver)?;
    assert_eq!(rt; acks.as_slice(), [(0, 10), (1, 11), (2, 12)].as_slice());
    assert_eq!(rt; acks_given(rt.alloc(), &mut giver)?.len(), 0);
    let (many, numbers) = still_wanted(rt.alloc(), &mut giver)?;
    assert_eq!(rt; many, 1);
    assert_eq!(rt; numbers.as_slice(), [7].as_slice());
    Ok(())
}

#[test]
fn what_is_not_certified_stays_wanted(rt: HostRuntime) -> Result<(), Fail> {
    let mut giver = knowing_nothing(rt.alloc(), Sizes::new(1, 0)?);
    assert_eq!(rt; acks_given(rt.alloc(), &mut giver)?.len(), 0);
    assert_eq!(rt; still_wanted(rt.alloc(), &mut giver)?.0, 2);
    Ok(())
}
