ghost use Rattle.std.specs.Prelude.{◌≡◌, ◌∷◌, [], OnOk, map, IsTrue};
ghost use Rattle.std.specs.List.{list_all};
ghost use Rattle.message_types.specs.Spelling.{summary_fits};
ghost use Rattle.protocol_rules.specs.declared.facts.OrderFact.TheVariants as fact;
ghost use Rattle.protocol_rules.specs.Group.{Group};
ghost use Rattle.protocol_rules.specs.Facts.{tells};
ghost use Rattle.protocol_rules.specs.Matrix.{rows_of_frames};
ghost use Rattle.protocol_rules.specs.Plans.{plan_of};
ghost use Rattle.protocol_rules.specs.Parts.{Grows};
ghost use Rattle.global_order.specs.OrderState.{Learns};
ghost use Rattle.lacking.specs.Come.{IsFurthestOf};
ghost use Rattle.view_change.specs.Planning.{is_spelled, are_spelled};
ghost use Rattle.master_knowledge.specs.Whole.{IsWhole};

use global_order::Order;
use lacking::Furthest;
use message_types::{Body, Certificate, Frame, NewView, PrePrepare, Rows, Signed};
use plain_lists::{Copied, Want};
use protocol_rules::rows_of;
use quorum_sets::Sizes;
use std::alloc::Global;
use view_change::plan_of_new_view;

/// Hands the global order what a part tells it.
pub fn take_order_part(
    alloc: Global,
    sizes: &Sizes,
    order: &mut Order,
    part: &Frame,
) -> Result<(), Want>
    requires { IsWhole sizes.now.n part.now }
    ensures { OnOk result ((g : Group) → sizes.now.n ≡ g.n → Learns order.old order.new (tells g part.now)) }
{
    match &part.body {
        Body::PrePrepare(proposal) => take_proposal(alloc, sizes, order, proposal),
        Body::Prepare(prepare) => order.take_prepare(&Signed {
            signer: part.signer,
            body: *prepare,
            sig: part.sig.copy()?,
        }),
        Body::Commit(commit) => order.take_commit(&Signed {
            signer: part.signer,
            body: *commit,
            sig: part.sig.copy()?,
        }),
        Body::Mark(mark) => order.take_mark(&Signed {
            signer: part.signer,
            body: *mark,
            sig: part.sig.copy()?,
        }),
        Body::Report(report) => take_certificates(order, report.certificates.as_slice()),
        Body::GiveOrdered(given) => order.take_rows(&given.rows),
        Body::NewView(new_view) => take_plan(alloc, sizes, order, new_view),
        _ => Ok(()),
    }
}

/// Has a part that is a commit or a mark tell how far its master has come.
pub fn take_furthest_part(furthest: &mut Furthest, part: &Frame)
    ensures { (g : Group) → Grows (IsFurthestOf g furthest.old) (IsFurthestOf g furthest.new) (tells g part.now) }
{
    match &part.body {
        Body::Commit(commit) => furthest.take(part.signer, commit.s),
        Body::Mark(mark) => furthest.take(part.signer, mark.s),
        _ => (),
    }
}

/// Hands it a preprepare's offer: the rows of the summaries inside.
fn take_proposal(
    alloc: Global,
    sizes: &Sizes,
    order: &mut Order,
    proposal: &PrePrepare,
) -> Result<(), Want>
    requires { IsTrue (list_all (λ f. summary_fits f.body) proposal.now.frames) }
    ensures { OnOk result ((g : Group) → sizes.now.n ≡ g.n
        → Learns order.old order.new (fact.Proposal proposal.now.v proposal.now.s (rows_of_frames g proposal.now.frames) ∷ [])) }
{
    let rows = rows_of(alloc, sizes, proposal.frames.as_slice())?;
    order.take_preprepare(proposal.v, proposal.s, &rows)
}

/// Hands it the rows of a report's certificates.
fn take_certificates(order: &mut Order, certificates: &[Certificate]) -> Result<(), Want>
    requires { IsTrue (list_all is_spelled certificates.now) }
    ensures { OnOk result (Learns order.old order.new (map (λ c. fact.Rows c.rows) certificates.now)) }
{
    for certificate in certificates {
        order.take_rows(&certificate.rows)?;
    }
    Ok(())
}

/// Hands it a new view's plan.
fn take_plan(
    alloc: Global,
    sizes: &Sizes,
    order: &mut Order,
    new_view: &NewView,
) -> Result<(), Want>
    requires { IsTrue (are_spelled (map (λ r. r.body) new_view.now.reports)) }
    ensures { OnOk result ((g : Group) → sizes.now.n ≡ g.n
        → Learns order.old order.new (fact.Plan new_view.now.v (plan_of g (map (λ r. r.body) new_view.now.reports)) ∷ [])) }
{
    let plan = plan_of_new_view(alloc, sizes, new_view)?;
    order.offer_plan(new_view.v, &plan)
}
