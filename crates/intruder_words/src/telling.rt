ghost use Rattle.std.specs.Prelude.{◌≡◌, ◌∷◌, [], OnOk, IsTrue, map};
ghost use Rattle.std.specs.List.{list_all, list_any};
ghost use Rattle.message_types.specs.Spelling.{rows_fit, summary_fits, frames_fit, body_fits};
ghost use Rattle.protocol_rules.specs.declared.facts.OrderFact.TheVariants as fact;
ghost use Rattle.protocol_rules.specs.Group.{group_of};
ghost use Rattle.protocol_rules.specs.Facts.{facts_of, tells};
ghost use Rattle.protocol_rules.specs.Matrix.{rows_of_frames};
ghost use Rattle.protocol_rules.specs.Plans.{plan_of};
ghost use Rattle.view_change.specs.Planning.{is_spelled, are_spelled as certificates_spelled};
ghost use Rattle.global_order.specs.OrderState.{IsOrderOf, Learns};
ghost use Rattle.intruder_words.specs.declared.asked.Asked.{Asked};
ghost use Rattle.intruder_words.specs.Telling.{is_item, asks_prepare, asks_commit, IsTold, KnowsAlike};
ghost use Rattle.intruder_words.specs.Speaking.{are_spelled};

use crate::asked::Asked;
use crate::plans::plan_rows;
use global_order::Order;
use message_types::{Body, Certificate, Commit, Frame, NewView, PrePrepare, Prepare, Rows, Signed};
use plain_lists::{Bytes, Copied, Want};
use play_words::Item;
use protocol_rules::rows_of;
use quorum_sets::Sizes;
use std::alloc::Global;

/// Hands an order that was told nothing what all frames known tell, as far as the question goes by it.
pub fn tell_all(
    alloc: Global,
    sizes: &Sizes,
    order: &mut Order,
    question: &Asked,
    known: &[Frame],
) -> Result<(), Want>
    requires new { IsOrderOf (group_of sizes.now 0) order.old [] [] }
    requires spelled { IsTrue (are_spelled known.now) }
    ensures { OnOk result (KnowsAlike question.now (group_of sizes.now 0) order.new (facts_of (group_of sizes.now 0) known.now)) }
{
    for frame in known {
        tell(alloc, sizes, order, question, frame)?;
    }
    Ok(())
}

/// Hands it what one frame tells.
fn tell(
    alloc: Global,
    sizes: &Sizes,
    order: &mut Order,
    question: &Asked,
    frame: &Frame,
) -> Result<(), Want>
    requires { IsTrue (body_fits frame.now.body) }
    ensures { OnOk result (IsTold question.now order.old order.new (tells (group_of sizes.now 0) frame.now)) }
{
    match &frame.body {
        Body::PrePrepare(proposal) => tell_proposal(alloc, sizes, order, proposal),
        Body::Prepare(prepare) => tell_prepare(order, question, frame.signer, prepare, &frame.sig),
        Body::Commit(commit) => tell_commit(order, question, frame.signer, commit, &frame.sig),
        Body::Report(report) => tell_certificates(order, report.certificates.as_slice()),
        Body::GiveOrdered(given) => tell_given(order, &given.rows),
        Body::NewView(new_view) => tell_plan(alloc, sizes, order, new_view),
        _ => Ok(()),
    }
}

/// Hands it the rows of the summaries inside a preprepare.
fn tell_proposal(
    alloc: Global,
    sizes: &Sizes,
    order: &mut Order,
    proposal: &PrePrepare,
) -> Result<(), Want>
    requires { IsTrue (frames_fit summary_fits proposal.now.frames) }
    ensures { OnOk result ((question : Asked) → IsTold question order.old order.new
        (fact.Proposal proposal.now.v proposal.now.s (rows_of_frames (group_of sizes.now 0) proposal.now.frames) ∷ [])) }
{
    let rows = rows_of(alloc, sizes, proposal.frames.as_slice())?;
    order.take_rows(&rows)?;
    Ok(())
}

/// Hands it a prepare that is asked for.
fn tell_prepare(
    order: &mut Order,
    question: &Asked,
    signer: u32,
    prepare: &Prepare,
    sig: &Bytes,
) -> Result<(), Want>
    ensures { OnOk result (IsTold question.now order.old order.new (fact.Prepare record { signer = signer; body = prepare.now; sig = sig.now } ∷ [])) }
{
    if !is_prepare_asked(question, prepare) {
        return Ok(());
    }
    order.take_prepare(&Signed {
        signer,
        body: *prepare,
        sig: sig.copy()?,
    })?;
    Ok(())
}

fn is_prepare_asked(question: &Asked, prepare: &Prepare) -> bool
    ensures { result ≡ asks_prepare question.now prepare.now.s prepare.now.v }
{
    match question {
        Asked::Prepares(items) => has_item(items.as_slice(), prepare.s, prepare.v),
        Asked::Commits(_) => false,
    }
}

fn has_item(items: &[Item], s: u64, v: u64) -> bool
    ensures { result ≡ list_any (is_item s v) items.now }
{
    items.iter().any(|item| item.s == s && item.v == v)
}

/// Hands it a commit that is asked for.
fn tell_commit(
    order: &mut Order,
    question: &Asked,
    signer: u32,
    commit: &Commit,
    sig: &Bytes,
) -> Result<(), Want>
    ensures { OnOk result (IsTold question.now order.old order.new (fact.Commit record { signer = signer; body = commit.now; sig = sig.now } ∷ [])) }
{
    if !is_commit_asked(question, commit) {
        return Ok(());
    }
    order.take_commit(&Signed {
        signer,
        body: *commit,
        sig: sig.copy()?,
    })?;
    Ok(())
}

fn is_commit_asked(question: &Asked, commit: &Commit) -> bool
    ensures { result ≡ asks_commit question.now commit.now.s }
{
    match question {
        Asked::Prepares(_) => false,
        Asked::Commits(s) => commit.s == *s,
    }
}

/// Hands it the rows of a report's certificates.
fn tell_certificates(order: &mut Order, certificates: &[Certificate]) -> Result<(), Want>
    requires { IsTrue (list_all is_spelled certificates.now) }
    ensures { OnOk result ((question : Asked) → IsTold question order.old order.new (map (λ c. fact.Rows c.rows) certificates.now)) }
{
    for certificate in certificates {
        order.take_rows(&certificate.rows)?;
    }
    Ok(())
}

/// Hands it the rows of an order given.
fn tell_given(order: &mut Order, rows: &Rows) -> Result<(), Want>
    requires { IsTrue (rows_fit rows.now) }
    ensures { OnOk result ((question : Asked) → IsTold question order.old order.new (fact.Rows rows.now ∷ [])) }
{
    order.take_rows(rows)?;
    Ok(())
}

/// Hands it the rows of a new view's plan.
fn tell_plan(
    alloc: Global,
    sizes: &Sizes,
    order: &mut Order,
    new_view: &NewView,
) -> Result<(), Want>
    requires { IsTrue (certificates_spelled (map (λ r. r.body) new_view.now.reports)) }
    ensures { OnOk result ((question : Asked) → IsTold question order.old order.new
        (fact.Plan new_view.now.v (plan_of (group_of sizes.now 0) (map (λ r. r.body) new_view.now.reports)) ∷ [])) }
{
    let rows = plan_rows(alloc, sizes, new_view.reports.as_slice())?;
    tell_rows(order, &rows)?;
    Ok(())
}

/// Hands it rows.
fn tell_rows(order: &mut Order, all: &[Rows]) -> Result<(), Want>
    requires { IsTrue (list_all rows_fit all.now) }
    ensures { OnOk result (Learns order.old order.new (map fact.Rows all.now)) }
{
    for rows in all {
        order.take_rows(rows)?;
    }
    Ok(())
}

/// Drops an order.
pub fn let_go(_order: Order) {}
