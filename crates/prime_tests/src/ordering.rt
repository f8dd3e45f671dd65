use crate::words::{
    digest_of, is_due, let_go, order_of_four, rows_of, take_commits, take_offer, take_prepares,
    votes_in,
};
use global_order::Order;
use message_types::{Body, Commit, Prepare};
use plain_lists::Want;
use std::alloc::Global;
use std::test::Fail;

fn is_prepare_due(order: &mut Order, s: u64, digest: [u8; 32]) -> Result<bool, Want> {
    is_due(order, 0, &Body::Prepare(Prepare { v: 0, s, digest }))
}

fn is_commit_due(order: &mut Order, s: u64, digest: [u8; 32]) -> Result<bool, Want> {
    is_due(order, 0, &Body::Commit(Commit { v: 0, s, digest }))
}

/// Whether the prepare of number 1 is due before its rows are offered, then and again.
fn prepares_due(alloc: Global, order: &mut Order) -> Result<[bool; 3], Want> {
    let digest = digest_of(alloc, 7)?;
    let before = is_prepare_due(order, 1, digest)?;
    take_offer(alloc, order, 1, 7)?;
    let then = is_prepare_due(order, 1, digest)?;
    let again = is_prepare_due(order, 1, digest)?;
    Ok([before, then, again])
}

#[test]
fn offered_rows_are_prepared_once(rt: HostRuntime) -> Result<(), Fail> {
    let mut order = order_of_four(rt.alloc())?;
    let due = prepares_due(rt.alloc(), &mut order);
    let_go(order);
    assert_eq!(rt; due?, [false, true, false]);
    Ok(())
}

/// Whether the commit of number 1 is due once these masters prepared it too.
fn is_prepared_by(
    alloc: Global,
    order: &mut Order,
    votes: &[(u32, u8)],
    digest: [u8; 32],
) -> Result<bool, Want> {
    take_prepares(alloc, order, votes, Prepare { v: 0, s: 1, digest })?;
    is_commit_due(order, 1, digest)
}

/// Whether the commit of number 1 is due once two masters prepared it, of which one twice, and once three did.
fn commits_due(alloc: Global, order: &mut Order) -> Result<[bool; 2], Want> {
    let digest = digest_of(alloc, 7)?;
    let _due = prepares_due(alloc, order)?;
    let by_two = is_prepared_by(alloc, order, &[(0, 1), (3, 1), (3, 2)], digest)?;
    let by_three = is_prepared_by(alloc, order, &[(2, 1)], digest)?;
    Ok([by_two, by_three])
}

#[test]
fn what_a_quorum_prepared_is_committed(rt: HostRuntime) -> Result<(), Fail> {
    let mut order = order_of_four(rt.alloc())?;
    let due = commits_due(rt.alloc(), &mut order);
    let_go(order);
    assert_eq!(rt; due?, [false, true]);
    Ok(())
}

/// Has an order take a number's commits of all four masters, of master 2 two.
fn commit(alloc: Global, order: &mut Order, s: u64, number: u64) -> Result<(), Want> {
    let votes = [(2, 12), (3, 13), (2, 22), (0, 10), (1, 11)];
    let digest = digest_of(alloc, number)?;
    take_commits(alloc, order, &votes, Commit { v: 0, s, digest })
}

fn take_rows(alloc: Global, order: &mut Order, number: u64) -> Result<(), Want> {
    let rows = rows_of(alloc, number)?;
    order.take_rows(&rows)
}

/// The gaps before and after the rows of number 1 come, where numbers 1 and 3 are committed and 3 has its rows.
fn gaps(alloc: Global, order: &mut Order) -> Result<[Option<u64>; 2], Want> {
    take_offer(alloc, order, 3, 9)?;
    commit(alloc, order, 3, 9)?;
    commit(alloc, order, 1, 7)?;
    let before = order.gap();
    take_rows(alloc, order, 7)?;
    Ok([before, order.gap()])
}

/// The votes in the whole order that is given for a number.
fn commits_given(alloc: Global, order: &Order, s: u64) -> Result<Vec<(u32, u8)>, Want> {
    match order.given(s)? {
        None => Ok(Vec::new(alloc)),
        Some(gift) => votes_in(alloc, gift.commits.as_slice()),
    }
}

#[test]
fn rows_that_come_late_are_ordered_and_given(rt: HostRuntime) -> Result<(), Fail> {
    let mut order = order_of_four(rt.alloc())?;
    let gaps = gaps(rt.alloc(), &mut order);
    let gapless = order.gapless();
    let votes = commits_given(rt.alloc(), &order, 1);
    let_go(order);
    assert_eq!(rt; gaps?, [Some(1), Some(2)]);
    assert_eq!(rt; gapless, 1);
    assert_eq!(rt; votes?.as_slice(), [(0, 10), (1, 11), (2, 12)].as_slice());
    Ok(())
}
