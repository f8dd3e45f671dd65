ghost use Rattle.std.specs.Prelude.{◌≡◌, IfOk, IsTrue, map};
ghost use Rattle.protocol_rules.specs.Group.{group_of};
ghost use Rattle.std.specs.Option.{option_map};
ghost use Rattle.message_types.specs.declared.body.Body.TheVariants as body;
ghost use Rattle.protocol_rules.specs.Facts.{facts_of};
ghost use Rattle.global_order.specs.Giving.{given_order};
ghost use Rattle.intruder_words.specs.Speaking.{are_spelled, all_of, update_named, summary_named, report_named, digest_named, report_of, base_or_stable, give_of, plain_body, body_of};

use crate::digests::digest_named;
use crate::naming::named;
use crate::reports::{order_given, report_of};
use crate::requests::give_of;
use message_types::{
    AskOrder, AskUpdate, Body, Commit, Frame, Mark, NewView, Ping, PoAck, PoRequest, PoSummary,
    Pong, PrePrepare, Prepare, Report, Rtt, Signed, Suspect, TatBound, TatReport, Update, Voucher,
};
use plain_lists::{Copied, Items, Want};
use play_words::{Item, Ref, Word};
use quorum_sets::Sizes;
use std::alloc::Global;

/// The named frame as an update.
fn update_named(known: &[Frame], which: Ref) -> Result<Option<Signed<Update>>, Want>
    ensures { IfOk result (λ update. update ≡ update_named known.now which) }
{
    let Some(frame) = named(known, which) else {
        return Ok(None);
    };
    match &frame.body {
        Body::Update(update) => Ok(Some(frame.with_body(*update)?)),
        _ => Ok(None),
    }
}

/// The named frame as a summary.
fn summary_named(known: &[Frame], which: Ref) -> Result<Option<Signed<PoSummary>>, Want>
    ensures { IfOk result (λ summary. summary ≡ summary_named known.now which) }
{
    let Some(frame) = named(known, which) else {
        return Ok(None);
    };
    match &frame.body {
        Body::PoSummary(summary) => Ok(Some(frame.with_body(summary.copy()?)?)),
        _ => Ok(None),
    }
}

/// The named frame as a report.
fn report_named(known: &[Frame], which: Ref) -> Result<Option<Signed<Report>>, Want>
    ensures { IfOk result (λ report. report ≡ report_named known.now which) }
{
    let Some(frame) = named(known, which) else {
        return Ok(None);
    };
    match &frame.body {
        Body::Report(report) => Ok(Some(frame.with_body(report.copy()?)?)),
        _ => Ok(None),
    }
}

/// The named summaries. None exactly where one isn't known.
fn summaries_named(
    alloc: Global,
    known: &[Frame],
    all: &[Ref],
) -> Result<Option<Items<Signed<PoSummary>>>, Want>
    ensures { IfOk result (λ summaries. summaries ≡ all_of (map (summary_named known.now) all.now)) }
{
    let mut summaries = Items::new(alloc);
    for which in all {
        let summary = summary_named(known, *which)?;
        let Some(summary) = summary else {
            return Ok(None);
        };
        summaries.push(summary)?;
    }
    Ok(Some(summaries))
}

/// The named reports. None exactly where one isn't known.
fn reports_named(
    alloc: Global,
    known: &[Frame],
    all: &[Ref],
) -> Result<Option<Items<Signed<Report>>>, Want>
    ensures { IfOk result (λ reports. reports ≡ all_of (map (report_named known.now) all.now)) }
{
    let mut reports = Items::new(alloc);
    for which in all {
        let report = report_named(known, *which)?;
        let Some(report) = report else {
            return Ok(None);
        };
        reports.push(report)?;
    }
    Ok(Some(reports))
}

/// The words that need no frame.
fn plain_body(word: &Word) -> Result<Option<Body>, Want>
    ensures { IfOk result (λ b. b ≡ plain_body word.now) }
{
    Ok(match word {
        Word::PoSummary { numbers } => Some(Body::PoSummary(PoSummary {
            numbers: numbers.copy()?,
        })),
        Word::Ping { number } => Some(Body::Ping(Ping { number: *number })),
        Word::Pong { to, number } => Some(Body::Pong(Pong {
            to: *to,
            number: *number,
        })),
        Word::Rtt { to, number, ticks } => Some(Body::Rtt(Rtt {
            to: *to,
            number: *number,
            ticks: *ticks,
        })),
        Word::TatReport { v, ticks } => Some(Body::TatReport(TatReport {
            v: *v,
            ticks: *ticks,
        })),
        Word::TatBound { v, ticks } => Some(Body::TatBound(TatBound {
            v: *v,
            ticks: *ticks,
        })),
        Word::Suspect { v } => Some(Body::Suspect(Suspect { v: *v })),
        Word::AskUpdate { j, k } => Some(Body::AskUpdate(AskUpdate { j: *j, k: *k })),
        Word::AskOrder { s } => Some(Body::AskOrder(AskOrder { s: *s })),
        Word::Voucher {
            client,
            number,
            order,
        } => Some(Body::Voucher(Voucher {
            client: *client,
            number: *number,
            order: *order,
        })),
        Word::Mark { s } => Some(Body::Mark(Mark { s: *s })),
        _ => None,
    })
}

/// A request for the named update.
fn request_body(known: &[Frame], k: u64, update: Ref) -> Result<Option<Body>, Want>
    ensures { IfOk result (λ word. word ≡ option_map (λ u. body.PoRequest record { k = k; update = u }) (update_named known.now update)) }
{
    let update = update_named(known, update)?;
    Ok(update.map(|update| Body::PoRequest(PoRequest { k, update })))
}

/// An acknowledgement with the digest that is meant.
fn ack_body(
    alloc: Global,
    sizes: &Sizes,
    known: &[Frame],
    j: u32,
    k: u64,
    which: Ref,
) -> Result<Option<Body>, Want>
    requires { IsTrue (are_spelled known.now) }
    ensures { IfOk result (λ word. word ≡ option_map (λ d. body.PoAck record { j = j; k = k; digest = d }) (digest_named (group_of sizes.now 0) known.now which)) }
{
    let digest = digest_named(alloc, sizes, known, which)?;
    let Some(digest) = digest else {
        return Ok(None);
    };
    Ok(Some(Body::PoAck(PoAck { j, k, digest })))
}

/// A prepare with the digest that is meant.
fn prepare_body(
    alloc: Global,
    sizes: &Sizes,
    known: &[Frame],
    v: u64,
    s: u64,
    which: Ref,
) -> Result<Option<Body>, Want>
    requires { IsTrue (are_spelled known.now) }
    ensures { IfOk result (λ word. word ≡ option_map (λ d. body.Prepare record { v = v; s = s; digest = d }) (digest_named (group_of sizes.now 0) known.now which)) }
{
    let digest = digest_named(alloc, sizes, known, which)?;
    let Some(digest) = digest else {
        return Ok(None);
    };
    Ok(Some(Body::Prepare(Prepare { v, s, digest })))
}

/// A commit with the digest that is meant.
fn commit_body(
    alloc: Global,
    sizes: &Sizes,
    known: &[Frame],
    v: u64,
    s: u64,
    which: Ref,
) -> Result<Option<Body>, Want>
    requires { IsTrue (are_spelled known.now) }
    ensures { IfOk result (λ word. word ≡ option_map (λ d. body.Commit record { v = v; s = s; digest = d }) (digest_named (group_of sizes.now 0) known.now which)) }
{
    let digest = digest_named(alloc, sizes, known, which)?;
    let Some(digest) = digest else {
        return Ok(None);
    };
    Ok(Some(Body::Commit(Commit { v, s, digest })))
}

/// A preprepare of the named summaries.
fn proposal_body(
    alloc: Global,
    known: &[Frame],
    v: u64,
    s: u64,
    frames: &[Ref],
) -> Result<Option<Body>, Want>
    ensures { IfOk result (λ word. word ≡ option_map (λ fs. body.PrePrepare record { v = v; s = s; frames = fs }) (all_of (map (summary_named known.now) frames.now))) }
{
    let frames = summaries_named(alloc, known, frames)?;
    Ok(frames.map(|frames| Body::PrePrepare(PrePrepare { v, s, frames })))
}

/// A new view of the named reports.
fn new_view_body(
    alloc: Global,
    known: &[Frame],
    v: u64,
    reports: &[Ref],
) -> Result<Option<Body>, Want>
    ensures { IfOk result (λ word. word ≡ option_map (λ rs. body.NewView record { v = v; reports = rs }) (all_of (map (report_named known.now) reports.now))) }
{
    let reports = reports_named(alloc, known, reports)?;
    Ok(reports.map(|reports| Body::NewView(NewView { v, reports })))
}

/// A report on the base, or on the stable number.
fn report_body(
    alloc: Global,
    sizes: &Sizes,
    known: &[Frame],
    v: u64,
    base: Option<u64>,
    items: &Items<Item>,
) -> Result<Option<Body>, Want>
    requires { IsTrue (are_spelled known.now) }
    ensures { IfOk result (λ word. word ≡ option_map (λ r. body.Report r) (report_of (group_of sizes.now 0) (facts_of (group_of sizes.now 0) known.now) v
        (base_or_stable (group_of sizes.now 0) (facts_of (group_of sizes.now 0) known.now) base) items.now)) }
{
    let report = report_of(alloc, sizes, known, v, base, items)?;
    Ok(report.map(|report| Body::Report(report)))
}

/// The gift of a certified request.
fn give_body(
    alloc: Global,
    sizes: &Sizes,
    known: &[Frame],
    j: u32,
    k: u64,
) -> Result<Option<Body>, Want>
    ensures { IfOk result (λ word. word ≡ option_map (λ gift. body.Give gift) (give_of (group_of sizes.now 0) known.now j k)) }
{
    let gift = give_of(alloc, sizes, known, j, k)?;
    Ok(gift.map(|gift| Body::Give(gift)))
}

/// The gift of a whole order.
fn order_body(alloc: Global, sizes: &Sizes, known: &[Frame], s: u64) -> Result<Option<Body>, Want>
    requires { IsTrue (are_spelled known.now) }
    ensures { IfOk result (λ word. word ≡ option_map (λ gift. body.GiveOrdered gift) (given_order (group_of sizes.now 0) (facts_of (group_of sizes.now 0) known.now) s)) }
{
    let gift = order_given(alloc, sizes, known, s)?;
    Ok(gift.map(|gift| Body::GiveOrdered(gift)))
}

/// The body that a word is where these frames are known.
pub fn body_of(
    alloc: Global,
    sizes: &Sizes,
    known: &[Frame],
    word: &Word,
) -> Result<Option<Body>, Want>
    requires { IsTrue (are_spelled known.now) }
    ensures { IfOk result (λ b. b ≡ body_of (group_of sizes.now 0) known.now word.now) }
{
    match word {
        Word::PoRequest { k, update } => request_body(known, *k, *update),
        Word::PoAck { j, k, digest } => ack_body(alloc, sizes, known, *j, *k, *digest),
        Word::PrePrepare { v, s, frames } => proposal_body(alloc, known, *v, *s, frames.as_slice()),
        Word::Prepare { v, s, digest } => prepare_body(alloc, sizes, known, *v, *s, *digest),
        Word::Commit { v, s, digest } => commit_body(alloc, sizes, known, *v, *s, *digest),
        Word::Report { v, base, items } => report_body(alloc, sizes, known, *v, *base, items),
        Word::NewView { v, reports } => new_view_body(alloc, known, *v, reports.as_slice()),
        Word::Give { j, k } => give_body(alloc, sizes, known, *j, *k),
        Word::GiveOrdered { s } => order_body(alloc, sizes, known, *s),
        other => plain_body(other),
    }
}
