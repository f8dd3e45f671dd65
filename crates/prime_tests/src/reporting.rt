ghost use Rattle.std.specs.Prelude.{IsTrue, IfOk};
ghost use Rattle.std.specs.List.{list_all};
ghost use Rattle.message_types.specs.Spelling.{rows_fit};

use crate::words::{
    digest_of, is_due, let_go, order_of_four, rows_of, take_marks, take_offer, take_prepares,
    votes_in,
};
use global_order::Order;
use message_types::{Body, Plan, Prepare};
use plain_lists::{Items, Want};
use std::alloc::Global;
use std::test::Fail;

/// Has an order take a number's rows and the prepares of all four masters, of master 2 two.
fn prepare(alloc: Global, order: &mut Order, s: u64) -> Result<(), Want> {
    let digest = digest_of(alloc, 7)?;
    take_offer(alloc, order, s, 7)?;
    let votes = [(2, 12), (3, 13), (2, 22), (0, 10), (1, 11)];
    take_prepares(alloc, order, &votes, Prepare { v: 0, s, digest })
}

/// The votes in the certificate for number `s`, where a report of view 1 brings that alone.
fn votes_reported(alloc: Global, order: &Order, s: u64) -> Result<Vec<(u32, u8)>, Want> {
    let certificates = order.certificates(1)?;
    match certificates.as_slice() {
        [one] if one.s == s && one.v == 0 => votes_in(alloc, one.prepares.as_slice()),
        _ => Ok(Vec::new(alloc)),
    }
}

/// The votes in the certificate of view 0 for number `s` that was complete first, if there is one.
fn votes_certified(alloc: Global, order: &Order, s: u64) -> Result<Option<Vec<(u32, u8)>>, Want> {
    let certificate = order.certificate(0, s)?;
    match certificate {
        Some(one) => Ok(Some(votes_in(alloc, one.prepares.as_slice())?)),
        None => Ok(None),
    }
}

fn votes_prepared(alloc: Global, order: &mut Order, s: u64) -> Result<Vec<(u32, u8)>, Want> {
    prepare(alloc, order, s)?;
    votes_reported(alloc, order, s)
}

#[test]
fn a_report_brings_what_is_prepared_in_the_window(rt: HostRuntime) -> Result<(), Fail> {
    let mut order = order_of_four(rt.alloc())?;
    let beyond = votes_prepared(rt.alloc(), &mut order, 17);
    let within = votes_prepared(rt.alloc(), &mut order, 16);
    let certified = votes_certified(rt.alloc(), &order, 17);
    let other = votes_certified(rt.alloc(), &order, 18);
    let_go(order);
    assert_eq!(rt; beyond?.len(), 0);
    assert_eq!(rt; within?.as_slice(), [(0, 10), (1, 11), (2, 12)].as_slice());
    let certified = certified?.ok_or("no certificate")?;
    assert_eq!(rt;
        certified.as_slice(),
        [(0, 10), (1, 11), (2, 12)].as_slice()
    );
    assert!(rt; other?.is_none());
    Ok(())
}

/// The votes that show the stable number once these masters marked number 8 too.
fn votes_marked(
    alloc: Global,
    order: &mut Order,
    votes: &[(u32, u8)],
) -> Result<Vec<(u32, u8)>, Want> {
    take_marks(alloc, order, votes, 8)?;
    let marks = order.marks()?;
    votes_in(alloc, &marks)
}

#[test]
fn marks_of_a_quorum_make_a_number_stable(rt: HostRuntime) -> Result<(), Fail> {
    let mut order = order_of_four(rt.alloc())?;
    let by_two = votes_marked(rt.alloc(), &mut order, &[(3, 13), (1, 11), (1, 21)]);
    let before = order.stable();
    let by_four = votes_marked(rt.alloc(), &mut order, &[(2, 12), (0, 10)]);
    let after = order.stable();
    let_go(order);
    assert_eq!(rt; (before, after), (0, 8));
    assert_eq!(rt; by_two?.len(), 0);
    assert_eq!(rt; by_four?.as_slice(), [(0, 10), (1, 11), (2, 12)].as_slice());
    Ok(())
}

/// A plan of one number.
fn plan_of(alloc: Global, base: u64, number: u64) -> Result<Plan, Want>
    ensures { IfOk result (λ plan. IsTrue (list_all rows_fit plan.rows)) }
{
    let mut rows = Items::new(alloc);
    rows.push(rows_of(alloc, number)?)?;
    Ok(Plan { base, rows })
}

/// Has an order take a plan of view 1, of one number.
fn take_plan(alloc: Global, order: &mut Order, base: u64, number: u64) -> Result<(), Want> {
    let plan = plan_of(alloc, base, number)?;
    order.offer_plan(1, &plan)
}

/// Whether the prepare of the first of two plans is due.
fn is_first_plan_due(alloc: Global, order: &mut Order) -> Result<bool, Want> {
    let digest = digest_of(alloc, 7)?;
    take_plan(alloc, order, 2, 7)?;
    take_plan(alloc, order, 2, 9)?;
    is_due(order, 1, &Body::Prepare(Prepare { v: 1, s: 3, digest }))
}

#[test]
fn the_first_plan_of_a_view_offers_its_rows(rt: HostRuntime) -> Result<(), Fail> {
    let mut order = order_of_four(rt.alloc())?;
    let is_due = is_first_plan_due(rt.alloc(), &mut order);
    let is_offered = order.plan(1).is_some() && order.offered(1, 3).is_some();
    let_go(order);
    assert!(rt; is_due?);
    assert!(rt; is_offered);
    Ok(())
}
