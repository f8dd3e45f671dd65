ghost use Rattle.std.specs.Prelude.{◌≡◌, IfOk, IsTrue, []};
ghost use Rattle.protocol_rules.specs.Group.{group_of};
ghost use Rattle.protocol_rules.specs.Facts.{facts_of};
ghost use Rattle.global_order.specs.OrderState.{IsOrderOf, Where};
ghost use Rattle.global_order.specs.Giving.{given_order};
ghost use Rattle.intruder_words.specs.declared.asked.Asked.TheVariants as asked;
ghost use Rattle.intruder_words.specs.Speaking.{are_spelled, certificates_known, report_of, base_or_stable};

use crate::asked::Asked;
use crate::marks::{marks_at, stable};
use crate::telling::{let_go, tell_all};
use global_order::Order;
use message_types::{Certificate, Frame, GiveOrdered, Report};
use plain_lists::{Copied, Items, Want};
use play_words::Item;
use quorum_sets::Sizes;
use std::alloc::Global;

/// The base of a report for which none is told is the stable number.
fn base_or_stable(
    alloc: Global,
    sizes: &Sizes,
    known: &[Frame],
    base: Option<u64>,
) -> Result<u64, Want>
    ensures { IfOk result (λ found. found ≡ base_or_stable (group_of sizes.now 0) (facts_of (group_of sizes.now 0) known.now) base) }
{
    match base {
        Some(base) => Ok(base),
        None => stable(alloc, sizes, known),
    }
}

/// All of these certificates by an order. None exactly where one isn't known.
fn certificates_in(
    alloc: Global,
    order: &Order,
    items: &[Item],
) -> Result<Option<Items<Certificate>>, Want>
    ensures { IfOk result (λ certificates. Where order.now (λ g facts said. certificates ≡ certificates_known g facts items.now)) }
{
    let mut known = Items::new(alloc);
    for item in items {
        let certificate = order.certificate(item.v, item.s)?;
        let Some(certificate) = certificate else {
            return Ok(None);
        };
        known.push(certificate)?;
    }
    Ok(Some(known))
}

/// All of these certificates by an order that is told what they go by.
fn certificates_by(
    alloc: Global,
    order: &mut Order,
    sizes: &Sizes,
    known: &[Frame],
    question: &Asked,
    items: &[Item],
) -> Result<Option<Items<Certificate>>, Want>
    requires new { IsOrderOf (group_of sizes.now 0) order.old [] [] }
    requires spelled { IsTrue (are_spelled known.now) }
    requires question { question.now ≡ asked.Prepares items.now }
    ensures { IfOk result (λ certificates. certificates ≡ certificates_known (group_of sizes.now 0) (facts_of (group_of sizes.now 0) known.now) items.now) }
{
    tell_all(alloc, sizes, order, question, known)?;
    certificates_in(alloc, order, items)
}

/// All of these certificates. None exactly where one isn't known.
fn certificates_known(
    alloc: Global,
    sizes: &Sizes,
    known: &[Frame],
    items: &Items<Item>,
) -> Result<Option<Items<Certificate>>, Want>
    requires { IsTrue (are_spelled known.now) }
    ensures { IfOk result (λ certificates. certificates ≡ certificates_known (group_of sizes.now 0) (facts_of (group_of sizes.now 0) known.now) items.now) }
{
    let question = Asked::Prepares(items.copy()?);
    let mut order = Order::new(alloc, *sizes);
    let found = certificates_by(alloc, &mut order, sizes, known, &question, items.as_slice());
    let_go(order);
    found
}

/// The report of a view on the base, or on the stable number. None exactly where the base isn't 0 and no quorum's marks of
/// it are known, or where a certificate isn't known.
pub fn report_of(
    alloc: Global,
    sizes: &Sizes,
    known: &[Frame],
    v: u64,
    base: Option<u64>,
    items: &Items<Item>,
) -> Result<Option<Report>, Want>
    requires { IsTrue (are_spelled known.now) }
    ensures { IfOk result (λ report. report ≡ report_of (group_of sizes.now 0) (facts_of (group_of sizes.now 0) known.now) v
        (base_or_stable (group_of sizes.now 0) (facts_of (group_of sizes.now 0) known.now) base) items.now) }
{
    let base = base_or_stable(alloc, sizes, known, base)?;
    let marks = marks_at(alloc, sizes, known, base)?;
    let Some(marks) = marks else {
        return Ok(None);
    };
    let certificates = certificates_known(alloc, sizes, known, items)?;
    let Some(certificates) = certificates else {
        return Ok(None);
    };
    Ok(Some(Report {
        v,
        base,
        marks,
        certificates,
    }))
}

/// The whole order of a number by an order that is told what it goes by.
fn order_by(
    alloc: Global,
    order: &mut Order,
    sizes: &Sizes,
    known: &[Frame],
    s: u64,
) -> Result<Option<GiveOrdered>, Want>
    requires new { IsOrderOf (group_of sizes.now 0) order.old [] [] }
    requires spelled { IsTrue (are_spelled known.now) }
    ensures { IfOk result (λ gift. gift ≡ given_order (group_of sizes.now 0) (facts_of (group_of sizes.now 0) known.now) s) }
{
    tell_all(alloc, sizes, order, &Asked::Commits(s), known)?;
    order.given(s)
}

/// The whole order of a number. None exactly where it isn't ordered.
pub fn order_given(
    alloc: Global,
    sizes: &Sizes,
    known: &[Frame],
    s: u64,
) -> Result<Option<GiveOrdered>, Want>
    requires { IsTrue (are_spelled known.now) }
    ensures { IfOk result (λ gift. gift ≡ given_order (group_of sizes.now 0) (facts_of (group_of sizes.now 0) known.now) s) }
{
    let mut order = Order::new(alloc, *sizes);
    let gift = order_by(alloc, &mut order, sizes, known, s);
    let_go(order);
    gift
}
