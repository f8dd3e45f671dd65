ghost use Rattle.std.specs.Prelude.{◌≡◌, ◌++◌, [], true, IfOk, IfSome, OnOk, map};
ghost use Rattle.std.specs.List.{list_all};
ghost use Rattle.std.specs.Option.{option_to_list};
ghost use Rattle.message_types.specs.Spelling.{rows_fit};
ghost use Rattle.view_change.specs.Planning.{is_spelled, are_spelled};

use message_types::{Body, Certificate, NewView, Plan, Report, Rows, Signed};
use plain_lists::{Bytes, Items, Want};
use quorum_sets::Sizes;
use std::alloc::Global;
use std::test::Fail;
use view_change::{Views, plan_of};

/// What master `me` of four, of whom three are a quorum, knows where no word is known.
fn views_of(alloc: Global, me: u32) -> Result<Views, Fail> {
    Ok(Views::new(alloc, Sizes::new(1, 0)?, me))
}

/// The present view, and whether it is open.
fn present(views: &Views) -> (u64, bool) {
    (views.view(), views.is_open())
}

/// The base of a view's plan, and how many numbers it has.
fn plan_known(views: &Views, v: u64) -> Option<(u64, usize)> {
    let plan = views.plan(v)?;
    Some((plan.base, plan.rows.len()))
}

/// The present view once these masters suspect the leader of view 0 too.
fn suspected_by(views: &mut Views, masters: &[u32]) -> Result<u64, Want> {
    for master in masters {
        views.take_suspect(*master, 0)?;
    }
    Ok(views.view())
}

/// The present views once two masters suspect, of which one twice, and once three do.
fn views_suspected(views: &mut Views) -> Result<[u64; 2], Want> {
    let by_two = suspected_by(views, &[0, 0, 2])?;
    let by_three = suspected_by(views, &[3])?;
    Ok([by_two, by_three])
}

/// A report of view 1 without certificates.
fn bare_report(alloc: Global, signer: u32) -> Result<Signed<Report>, Want>
    ensures { IfOk result (λ f. f.body.certificates ≡ []) }
{
    let sig = Bytes::from_slice(alloc, &[])?;
    Ok(Signed {
        signer,
        body: Report {
            v: 1,
            base: 0,
            marks: Items::new(alloc),
            certificates: Items::new(alloc),
        },
        sig,
    })
}

fn take_reports(alloc: Global, views: &mut Views, masters: &[u32]) -> Result<(), Want> {
    for master in masters {
        let frame = bare_report(alloc, *master)?;
        views.take_report(&frame)?;
    }
    Ok(())
}

/// How many bodies are due; where the first is a report, its view and how many certificates it brings.
fn report_due(views: &mut Views) -> Result<(usize, Option<(u64, usize)>), Want> {
    let bodies = views.due(0, &[], &[])?;
    Ok((bodies.len(), reported(bodies.first())))
}

fn reported(body: Option<&Body>) -> Option<(u64, usize)> {
    match body {
        Some(Body::Report(report)) => Some((report.v, report.certificates.len())),
        _ => None,
    }
}

/// A new view's number, how many reports it holds, and who signed the first and the last.
type Opened = (u64, usize, u32, u32);

/// How many bodies are due once these masters reported too, and what the first says, where it is a new view.
fn new_view_due(
    alloc: Global,
    views: &mut Views,
    masters: &[u32],
) -> Result<(usize, Option<Opened>), Want> {
    take_reports(alloc, views, masters)?;
    let bodies = views.due(0, &[], &[])?;
    Ok((bodies.len(), opened(bodies.first())))
}

fn opened(body: Option<&Body>) -> Option<Opened> {
    match body {
        Some(Body::NewView(word)) => match word.reports.as_slice() {
            [] => None,
            [only] => Some((word.v, 1, only.signer, only.signer)),
            [first, .., last] => Some((word.v, word.reports.len(), first.signer, last.signer)),
        },
        _ => None,
    }
}

/// What is due once two masters reported, of which one twice, once three did, and then.
fn new_views_due(alloc: Global, views: &mut Views) -> Result<[(usize, Option<Opened>); 3], Want> {
    let by_two = new_view_due(alloc, views, &[3, 0, 0])?;
    let by_three = new_view_due(alloc, views, &[2])?;
    let again = new_view_due(alloc, views, &[])?;
    Ok([by_two, by_three, again])
}

#[test]
fn three_suspicions_and_three_reports_make_a_new_view(rt: HostRuntime) -> Result<(), Fail> {
    let mut views = views_of(rt.alloc(), 1)?;
    assert_eq!(rt; views_suspected(&mut views)?, [0, 1]);
    assert!(rt; !views.is_open());
    assert_eq!(rt; plan_known(&views, 1), None);
    assert_eq!(rt; report_due(&mut views)?, (1, Some((1, 0))));
    let new_views = new_views_due(rt.alloc(), &mut views)?;
    assert_eq!(rt; new_views, [(0, None), (1, Some((1, 3, 0, 3))), (0, None)]);
    Ok(())
}

/// A new view 1 of three bare reports.
fn bare_new_view(alloc: Global) -> Result<Signed<NewView>, Want>
    ensures { IfOk result (λ f. are_spelled (map (λ r. r.body) f.body.reports) ≡ true) }
{
    let sig = Bytes::from_slice(alloc, &[])?;
    let reports = bare_reports(alloc)?;
    Ok(Signed {
        signer: 1,
        body: NewView { v: 1, reports },
        sig,
    })
}

fn bare_reports(alloc: Global) -> Result<Items<Signed<Report>>, Want>
    ensures { IfOk result (λ reports. are_spelled (map (λ r. r.body) reports) ≡ true) }
{
    let mut reports = Items::new(alloc);
    reports.push(bare_report(alloc, 0)?)?;
    reports.push(bare_report(alloc, 2)?)?;
    reports.push(bare_report(alloc, 3)?)?;
    Ok(reports)
}

fn take_new_view(alloc: Global, views: &mut Views) -> Result<(), Want> {
    let frame = bare_new_view(alloc)?;
    views.take_new_view(&frame)
}

/// Who heard of no suspicion goes with the new view, and has its plan.
#[test]
fn a_new_view_opens_its_view(rt: HostRuntime) -> Result<(), Fail> {
    let mut views = views_of(rt.alloc(), 3)?;
    assert_eq!(rt; present(&views), (0, true));
    take_new_view(rt.alloc(), &mut views)?;
    assert_eq!(rt; present(&views), (1, true));
    assert_eq!(rt; plan_known(&views, 0), Some((0, 0)));
    assert_eq!(rt; plan_known(&views, 1), Some((0, 0)));
    assert_eq!(rt; plan_known(&views, 2), None);
    assert_eq!(rt; report_due(&mut views)?.0, 0);
    Ok(())
}

/// What a certificate is for: its number, its view, and the one number in its rows.
type Prepared = (u64, u64, u64);

fn rows_of(alloc: Global, number: u64) -> Result<Rows, Want>
    ensures { IfOk result (λ rows. rows_fit rows ≡ true) }
{
    let mut row = Items::new(alloc);
    row.push(number)?;
    let mut rows = Items::new(alloc);
    rows.push(row)?;
    Ok(rows)
}

fn certificate(alloc: Global, prepared: Prepared) -> Result<Certificate, Want>
    ensures { IfOk result (λ c. is_spelled c ≡ true) }
{
    let (s, v, number) = prepared;
    Ok(Certificate {
        s,
        v,
        rows: rows_of(alloc, number)?,
        prepares: Items::new(alloc),
    })
}

fn push_one(list: &mut Items<Certificate>, certificate: Option<Certificate>) -> Result<(), Want>
    ensures { OnOk result (list.new ≡ list.old ++ option_to_list certificate) }
{
    match certificate {
        Some(certificate) => list.push(certificate),
        None => Ok(()),
    }
}

/// A certificate for what was prepared, if anything was.
fn certificate_if(alloc: Global, prepared: Option<Prepared>) -> Result<Option<Certificate>, Want>
    ensures { IfOk result (λ answer. IfSome answer (λ c. is_spelled c ≡ true)) }
{
    match prepared {
        Some(prepared) => Ok(Some(certificate(alloc, prepared)?)),
        None => Ok(None),
    }
}

fn certificates_of(
    alloc: Global,
    first: Option<Prepared>,
    second: Option<Prepared>,
) -> Result<Items<Certificate>, Want>
    ensures { IfOk result (λ certificates. list_all is_spelled certificates ≡ true) }
{
    let mut certificates = Items::new(alloc);
    let one = certificate_if(alloc, first)?;
    push_one(&mut certificates, one)?;
    let two = certificate_if(alloc, second)?;
    push_one(&mut certificates, two)?;
    Ok(certificates)
}

/// A report's base, and what up to two certificates in it are for.
type Brought = (u64, Option<Prepared>, Option<Prepared>);

fn report(alloc: Global, brought: Brought) -> Result<Report, Want>
    ensures { IfOk result (λ r. list_all is_spelled r.certificates ≡ true) }
{
    let (base, first, second) = brought;
    Ok(Report {
        v: 2,
        base,
        marks: Items::new(alloc),
        certificates: certificates_of(alloc, first, second)?,
    })
}

/// A plan's base, how many numbers it has, and of each of the first three how many rows and which number the first of them
/// begins with, 0 where it is empty.
type Outline = (u64, usize, [Option<(usize, u64)>; 3]);

fn outlined(plan: &Plan) -> Outline {
    let rows = [rows_in(plan, 0), rows_in(plan, 1), rows_in(plan, 2)];
    (plan.base, plan.rows.len(), rows)
}

fn rows_in(plan: &Plan, place: usize) -> Option<(usize, u64)> {
    let rows = plan.rows.get(place)?;
    let row = rows.get(0)?;
    match row.get(0) {
        Some(number) => Some((rows.len(), *number)),
        None => Some((rows.len(), 0)),
    }
}

/// The plan of three reports.
fn plan_of_three(
    alloc: Global,
    sizes: &Sizes,
    first: Report,
    second: Report,
    third: Report,
) -> Result<Plan, Want>
    requires first { list_all is_spelled first.certificates ≡ true }
    requires second { list_all is_spelled second.certificates ≡ true }
    requires third { list_all is_spelled third.certificates ≡ true }
{
    let reports = [first, second, third];
    plan_of(alloc, sizes, reports.as_slice())
}

fn outline_of(alloc: Global, sizes: &Sizes, brought: [Brought; 3]) -> Result<Outline, Want> {
    let first = report(alloc, brought[0])?;
    let second = report(alloc, brought[1])?;
    let third = report(alloc, brought[2])?;
    let plan = plan_of_three(alloc, sizes, first, second, third)?;
    Ok(outlined(&plan))
}

/// What is planned where three reports bring this in a group of four.
fn planned(alloc: Global, brought: [Brought; 3]) -> Result<Outline, Fail> {
    let sizes = Sizes::new(1, 0)?;
    Ok(outline_of(alloc, &sizes, brought)?)
}

#[test]
fn the_certificate_of_the_highest_view_is_planned(rt: HostRuntime) -> Result<(), Fail> {
    let one = (0, Some((1, 0, 7)), None);
    let two = (0, Some((1, 0, 7)), Some((3, 0, 9)));
    let three = (0, Some((1, 1, 8)), None);
    let rows = [Some((1, 8)), Some((4, 0)), Some((1, 9))];
    assert_eq!(rt; planned(rt.alloc(), [one, two, three])?, (0, 3, rows));
    Ok(())
}

#[test]
fn a_plan_starts_above_the_greatest_base(rt: HostRuntime) -> Result<(), Fail> {
    let one = (8, Some((9, 0, 7)), None);
    let two = (0, Some((8, 1, 8)), Some((11, 0, 9)));
    let three = (8, None, None);
    let rows = [Some((1, 7)), Some((4, 0)), Some((1, 9))];
    assert_eq!(rt; planned(rt.alloc(), [one, two, three])?, (8, 3, rows));
    Ok(())
}

/// The digest of rows with number 2 begins with the byte 0x1d, that of rows with number 1 with 0x7c.
#[test]
fn the_least_digest_of_one_view_is_planned(rt: HostRuntime) -> Result<(), Fail> {
    let one = (0, Some((1, 0, 1)), None);
    let two = (0, Some((1, 0, 2)), None);
    let rows = [Some((1, 2)), None, None];
    assert_eq!(rt; planned(rt.alloc(), [one, two, one])?, (0, 1, rows));
    Ok(())
}
