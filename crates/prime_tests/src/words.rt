ghost use Rattle.std.specs.Prelude.{IsTrue, IfOk};
ghost use Rattle.message_types.specs.Spelling.{row_fits, rows_fit};

use global_order::Order;
use message_types::{Body, Commit, Mark, Prepare, Rows, Signed, rows_digest};
use plain_lists::{Bytes, Items, Same, Vector, Want};
use quorum_sets::Sizes;
use std::alloc::Global;
use std::test::Fail;

/// The order of a group of four masters where nothing is known.
pub fn order_of_four(alloc: Global) -> Result<Order, Fail> {
    Ok(Order::new(alloc, Sizes::new(1, 0)?))
}

/// Drops an order. The proof of a function that drops one goes through all that an order holds and takes long, so the tests
/// do it here alone.
pub fn let_go(_order: Order) {}

/// Rows of one vector, which holds one number.
pub fn rows_of(alloc: Global, number: u64) -> Result<Rows, Want>
    ensures { IfOk result (λ rows. IsTrue (rows_fit rows)) }
{
    let mut rows = Items::new(alloc);
    rows.push(row_of(alloc, number)?)?;
    Ok(rows)
}

fn row_of(alloc: Global, number: u64) -> Result<Vector, Want>
    ensures { IfOk result (λ row. IsTrue (row_fits row)) }
{
    let mut row = Items::new(alloc);
    row.push(number)?;
    Ok(row)
}

/// The digest of these rows.
pub fn digest_of(alloc: Global, number: u64) -> Result<[u8; 32], Want> {
    let rows = rows_of(alloc, number)?;
    Ok(rows_digest(&rows))
}

fn signed_by<B: Drop>(alloc: Global, signer: u32, byte: u8, body: B) -> Result<Signed<B>, Want> {
    let sig = Bytes::from_slice(alloc, &[byte])?;
    Ok(Signed { signer, body, sig })
}

/// Has an order take the rows that view 0 offers as number `s`.
pub fn take_offer(alloc: Global, order: &mut Order, s: u64, number: u64) -> Result<(), Want> {
    let rows = rows_of(alloc, number)?;
    order.take_preprepare(0, s, &rows)
}

/// Has an order take a prepare of each of these masters, signed with one byte.
pub fn take_prepares(
    alloc: Global,
    order: &mut Order,
    votes: &[(u32, u8)],
    word: Prepare,
) -> Result<(), Want> {
    for (signer, byte) in votes {
        let frame = signed_by(alloc, *signer, *byte, word)?;
        order.take_prepare(&frame)?;
    }
    Ok(())
}

/// Has an order take a commit of each of these masters.
pub fn take_commits(
    alloc: Global,
    order: &mut Order,
    votes: &[(u32, u8)],
    word: Commit,
) -> Result<(), Want> {
    for (signer, byte) in votes {
        let frame = signed_by(alloc, *signer, *byte, word)?;
        order.take_commit(&frame)?;
    }
    Ok(())
}

/// Has an order take a mark of number `s` of each of these masters.
pub fn take_marks(
    alloc: Global,
    order: &mut Order,
    votes: &[(u32, u8)],
    s: u64,
) -> Result<(), Want> {
    for (signer, byte) in votes {
        let frame = signed_by(alloc, *signer, *byte, Mark { s })?;
        order.take_mark(&frame)?;
    }
    Ok(())
}

/// The master and the signature's byte of each frame.
pub fn votes_in<B: Drop>(alloc: Global, frames: &[Signed<B>]) -> Result<Vec<(u32, u8)>, Want> {
    let mut votes = Vec::new(alloc);
    for frame in frames {
        votes.push((frame.signer, first_byte(&frame.sig)))?;
    }
    Ok(votes)
}

fn first_byte(sig: &Bytes) -> u8 {
    match sig.as_slice() {
        [byte, ..] => *byte,
        [] => 0,
    }
}

/// Whether what is due in a view that is open is this word alone.
pub fn is_due(order: &mut Order, view: u64, word: &Body) -> Result<bool, Want> {
    let bodies = order.due(view, true)?;
    Ok(match bodies.as_slice() {
        [body] => body.is_same(word),
        _ => false,
    })
}
