ghost use Rattle.std.specs.Prelude.{◌≡◌, ◌++◌, List, IsTrue, IfOk, IfSome, option_copied, filter, map, max};
ghost use Rattle.std.specs.List.{list_all};
ghost use Rattle.message_types.specs.declared.ordering.Certificate.{Certificate as CertificateWord};
ghost use Rattle.message_types.specs.declared.views.Report.{Report as ReportWord};
ghost use Rattle.protocol_rules.specs.Words.{best_by, greatest_of};
ghost use Rattle.protocol_rules.specs.Group.{Group};
ghost use Rattle.protocol_rules.specs.Plans.{base_of, last_of, no_rows};
ghost use Rattle.protocol_rules.specs.Plans as rules;
ghost use Rattle.view_change.specs.Planning.{is_for, is_spelled, are_spelled, best_with};

use message_types::{Certificate, NewView, Plan, Report, Rows, Signed, rows_digest};
use plain_lists::{Copied, Items, Want};
use quorum_sets::Sizes;
use std::alloc::Global;

/// What a new view with these reports takes over, after PBFT: from their greatest base on, for each number up
/// to the greatest that has a certificate, the rows of the certificate of the highest view, else empty rows.
pub fn plan_of(alloc: Global, sizes: &Sizes, reports: &[Report]) -> Result<Plan, Want>
    requires { IsTrue (are_spelled reports.now) }
    ensures { IfOk result (λ plan. (g : Group) → sizes.now.n ≡ g.n → plan ≡ rules.plan_of g reports.now) }
{
    plan_over(alloc, sizes, reports)
}

/// The plan of the reports that a new view holds.
pub fn plan_of_new_view(alloc: Global, sizes: &Sizes, new_view: &NewView) -> Result<Plan, Want>
    requires { IsTrue (are_spelled (map (λ r. r.body) new_view.now.reports)) }
    ensures { IfOk result (λ plan. (g : Group) → sizes.now.n ≡ g.n → plan ≡ rules.plan_of g (map (λ r. r.body) new_view.now.reports)) }
{
    plan_over(alloc, sizes, new_view.reports.as_slice())
}

/// A report, or a signed one.
trait BringsReport {
    ghost brought: { Self → ReportWord };

    fn report(&self) -> &Report
        ensures { result.now ≡ brought self.now };
}

impl BringsReport for Report {
    ghost brought = { λ r. r };

    fn report(&self) -> &Report {
        self
    }
}

impl BringsReport for Signed<Report> {
    ghost brought = { λ r. r.body };

    fn report(&self) -> &Report {
        &self.body
    }
}

fn plan_over<R: BringsReport>(alloc: Global, sizes: &Sizes, reports: &[R]) -> Result<Plan, Want>
    requires { IsTrue (are_spelled (map R.brought reports.now)) }
    ensures { IfOk result (λ plan. (g : Group) → sizes.now.n ≡ g.n → plan ≡ rules.plan_of g (map R.brought reports.now)) }
{
    let base = greatest_base(reports);
    let count = last_number(reports).saturating_sub(base);
    let mut rows = Items::new(alloc);
    for step in 0..count {
        let next = planned(alloc, sizes, reports, base + 1 + step)?;
        rows.push(next)?;
    }
    Ok(Plan { base, rows })
}

/// The rows that a plan has for a number.
fn planned<R: BringsReport>(
    alloc: Global,
    sizes: &Sizes,
    reports: &[R],
    s: u64,
) -> Result<Rows, Want>
    requires { IsTrue (are_spelled (map R.brought reports.now)) }
    ensures { IfOk result (λ rows. (g : Group) → sizes.now.n ≡ g.n → rows ≡ rules.planned g (map R.brought reports.now) s) }
{
    match chosen(reports, s) {
        Some(certificate) => certificate.rows.copy(),
        None => empty_rows(alloc, sizes),
    }
}

/// An empty row for each master.
fn empty_rows(alloc: Global, sizes: &Sizes) -> Result<Rows, Want>
    ensures { IfOk result (λ rows. (g : Group) → sizes.now.n ≡ g.n → rows ≡ no_rows g) }
{
    let mut rows = Items::new(alloc);
    for _master in 0..sizes.n {
        rows.push(Items::new(alloc))?;
    }
    Ok(rows)
}

fn greatest_base<R: BringsReport>(reports: &[R]) -> u64
    ensures { result ≡ base_of (map R.brought reports.now) }
{
    let mut base = 0;
    for holder in reports {
        base = holder.report().base.max(base);
    }
    base
}

fn last_number<R: BringsReport>(reports: &[R]) -> u64
    ensures { result ≡ last_of (map R.brought reports.now) }
{
    let mut last = 0;
    for holder in reports {
        last = last_among(holder.report().certificates.as_slice(), last);
    }
    last
}

fn last_among(certificates: &[Certificate], least: u64) -> u64
    ensures { result ≡ max least (greatest_of (map (λ c. c.s) certificates.now)) }
{
    let mut last = least;
    for certificate in certificates {
        last = certificate.s.max(last);
    }
    last
}

/// The certificate that the reports bring for a number, if any.
fn chosen<R: BringsReport>(reports: &[R], s: u64) -> Option<&Certificate>
    requires { IsTrue (are_spelled (map R.brought reports.now)) }
    ensures { option_copied result ≡ rules.chosen (map R.brought reports.now) s }
{
    let mut best = None;
    for holder in reports {
        best = best_among(best, holder.report().certificates.as_slice(), s);
    }
    best
}

/// The best certificate for a number, of the best before and of those of one report more.
fn best_among<'a>(
    best: Option<&'a Certificate>,
    certificates: &'a [Certificate],
    s: u64,
) -> Option<&'a Certificate>
    requires best { IfSome (option_copied best) (λ c. IsTrue (is_spelled c)) }
    requires others { IsTrue (list_all is_spelled certificates.now) }
    ensures best { (before : List CertificateWord) → option_copied best.entry ≡ best_by rules.goes_before (filter (is_for s) before)
        → option_copied result ≡ best_by rules.goes_before (filter (is_for s) (before ++ certificates.now)) }
    ensures spelled { IfSome (option_copied result) (λ c. IsTrue (is_spelled c)) }
{
    let mut found = best;
    for certificate in certificates {
        found = better(found, certificate, s);
    }
    found
}

/// The better of the best certificate so far and one more, where it is for the number.
fn better<'a>(
    best: Option<&'a Certificate>,
    other: &'a Certificate,
    s: u64,
) -> Option<&'a Certificate>
    requires best { IfSome (option_copied best) (λ c. IsTrue (is_spelled c)) }
    requires other { IsTrue (is_spelled other.now) }
    ensures { option_copied result ≡ best_with s (option_copied best.entry) other.now }
{
    if other.s != s {
        return best;
    }
    match best {
        Some(first) if !goes_before(other, first) => Some(first),
        _ => Some(other),
    }
}

/// Whether a certificate is taken before another one for its number.
fn goes_before(a: &Certificate, b: &Certificate) -> bool
    requires first { IsTrue (is_spelled a.now) }
    requires second { IsTrue (is_spelled b.now) }
    ensures { result ≡ rules.goes_before a.now b.now }
{
    if a.v != b.v {
        return b.v < a.v;
    }
    rows_digest(&a.rows)
        .as_slice()
        .cmp(rows_digest(&b.rows).as_slice())
        .is_lt()
}
