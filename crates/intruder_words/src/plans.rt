ghost use Rattle.std.specs.Prelude.{◌≡◌, ◌+◌, ◌-◌, ◌++◌, ◌∷◌, [], OnOk, IfOk, IsTrue, Some, filter, map, if◌then◌else◌};
ghost use Rattle.std.specs.List.{list_all};
ghost use Rattle.message_types.specs.Spelling.{rows_fit};
ghost use Rattle.protocol_rules.specs.Group.{group_of};
ghost use Rattle.protocol_rules.specs.Words.{numbers_from};
ghost use Rattle.protocol_rules.specs.Plans.{base_of, certificates_of, last_of};
ghost use Rattle.protocol_rules.specs.Plans as rules;
ghost use Rattle.view_change.specs.Planning.{is_for, is_spelled, are_spelled};
ghost use Rattle.intruder_words.specs.Telling.{HasSameRows, bare, report_on, rows_for};
ghost use Rattle.intruder_words.specs.Numbering.{lesser, IsNextNumber};

use message_types::{Certificate, Report, Rows, Signed};
use plain_lists::{Copied, Items, Want};
use quorum_sets::Sizes;
use std::alloc::Global;
use view_change::plan_of;

/// The rows of a new view's plan, of each row of numbers without a certificate the empty ones once. A plan may go up to any
/// number.
pub fn plan_rows(
    alloc: Global,
    sizes: &Sizes,
    reports: &[Signed<Report>],
) -> Result<Vec<Rows>, Want>
    requires { IsTrue (are_spelled (map (λ r. r.body) reports.now)) }
    ensures same { IfOk result (λ rows. HasSameRows rows.items (rules.plan_of (group_of sizes.now 0) (map (λ r. r.body) reports.now)).rows) }
    ensures fit { IfOk result (λ rows. IsTrue (list_all rows_fit rows.items)) }
{
    let all = bare_certificates(alloc, reports)?;
    rows_after(alloc, sizes, &all, greatest_base(reports))
}

/// The reports' certificates without their prepares.
fn bare_certificates(alloc: Global, reports: &[Signed<Report>]) -> Result<Vec<Certificate>, Want>
    ensures { IfOk result (λ all. all.items ≡ map bare (certificates_of (map (λ r. r.body) reports.now))) }
{
    let mut all = Vec::new(alloc);
    for report in reports {
        push_bare(alloc, &mut all, report.body.certificates.as_slice())?;
    }
    Ok(all)
}

fn push_bare(
    alloc: Global,
    all: &mut Vec<Certificate>,
    certificates: &[Certificate],
) -> Result<(), Want>
    ensures { OnOk result (all.new.items ≡ all.old.items ++ map bare certificates.now) }
{
    for certificate in certificates {
        all.push(bare(alloc, certificate)?)?;
    }
    Ok(())
}

fn bare(alloc: Global, certificate: &Certificate) -> Result<Certificate, Want>
    ensures { IfOk result (λ copy. copy ≡ bare certificate.now) }
{
    Ok(Certificate {
        s: certificate.s,
        v: certificate.v,
        rows: certificate.rows.copy()?,
        prepares: Items::new(alloc),
    })
}

fn greatest_base(reports: &[Signed<Report>]) -> u64
    ensures { result ≡ base_of (map (λ r. r.body) reports.now) }
{
    let mut base = 0;
    for report in reports {
        base = report.body.base.max(base);
    }
    base
}

/// The rows of all numbers above the base up to the last that has a certificate.
fn rows_after(
    alloc: Global,
    sizes: &Sizes,
    all: &[Certificate],
    base: u64,
) -> Result<Vec<Rows>, Want>
    requires { IsTrue (list_all is_spelled all.now) }
    ensures same { IfOk result (λ rows. HasSameRows rows.items
        (map (rows_for (group_of sizes.now 0) all.now) (numbers_from (base + 1) (last_of (report_on 0 all.now ∷ []) - base)))) }
    ensures fit { IfOk result (λ rows. IsTrue (list_all rows_fit rows.items)) }
{
    let mut rows = Vec::new(alloc);
    let mut at = base;
    while let Some(next) = next_number(all, at) {
        let mut more = rows_up_to(alloc, sizes, all, at, next)?;
        rows.append(&mut more)?;
        at = next;
    }
    Ok(rows)
}

/// The least number above another one that has a certificate.
fn next_number(all: &[Certificate], at: u64) -> Option<u64>
    ensures { IsNextNumber all.now at result }
{
    let mut next = None;
    for certificate in all {
        next = lesser(at, next, certificate.s);
    }
    next
}

/// The lesser of a number and one more, where that is above another one.
fn lesser(at: u64, next: Option<u64>, s: u64) -> Option<u64>
    ensures { result ≡ lesser at next s }
{
    match next {
        Some(least) if s <= at || least <= s => Some(least),
        None if s <= at => None,
        _ => Some(s),
    }
}

/// The rows of the numbers above one up to the next that has a certificate.
fn rows_up_to(
    alloc: Global,
    sizes: &Sizes,
    all: &[Certificate],
    at: u64,
    next: u64,
) -> Result<Vec<Rows>, Want>
    requires spelled { IsTrue (list_all is_spelled all.now) }
    requires next { IsNextNumber all.now at (Some next) }
    ensures same { IfOk result (λ rows. HasSameRows rows.items (map (rows_for (group_of sizes.now 0) all.now) (numbers_from (at + 1) (next - at)))) }
    ensures fit { IfOk result (λ rows. IsTrue (list_all rows_fit rows.items)) }
{
    let certificates = all_for(alloc, all, next)?;
    // All numbers between have the same empty rows.
    let base = at.max(next.saturating_sub(2));
    let report = Report {
        v: 0,
        base,
        marks: Items::new(alloc),
        certificates,
    };
    let plan = plan_of(alloc, sizes, &[report])?;
    let rows = plan.rows.copy()?;
    Ok(rows.into_vec())
}

/// The certificates for a number.
fn all_for(alloc: Global, all: &[Certificate], s: u64) -> Result<Items<Certificate>, Want>
    ensures { IfOk result (λ certificates. certificates ≡ filter (is_for s) all.now) }
{
    let mut certificates = Items::new(alloc);
    for certificate in all {
        push_if(&mut certificates, certificate.s == s, certificate)?;
    }
    Ok(certificates)
}

fn push_if(
    certificates: &mut Items<Certificate>,
    is_kept: bool,
    certificate: &Certificate,
) -> Result<(), Want>
    ensures { OnOk result (certificates.new ≡ certificates.old ++ (if is_kept then certificate.now ∷ [] else [])) }
{
    if is_kept {
        certificates.push(certificate.copy()?)?;
    }
    Ok(())
}
