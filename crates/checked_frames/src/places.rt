ghost use Rattle.std.specs.Prelude.{◌≡◌, ◌<◌, ◌≤◌, ◌&&◌, ◌%◌, ◌+◌, length, if◌then◌else◌, IsTrue, nat_eq, nat_le, nat_lt};
ghost use Rattle.std.specs.List.{list_all};
ghost use Rattle.std.specs.Str.{bytes_eq};
ghost use Rattle.message_types.specs.Digests.{digest_of_rows, digest_of_update};
ghost use Rattle.message_types.specs.Spelling.{rows_fit};
ghost use Rattle.message_types.specs.declared.body.Body.{Body};
ghost use Rattle.protocol_rules.specs.Group.{group_of, most_number, most_view, mark_step};
ghost use Rattle.protocol_rules.specs.Places.{is_number, is_view, is_row, are_rows, certificate_in_place, report_in_place, give_in_place, word_in_place, in_place, in_32_bits, in_64_bits, in_signed_64_bits, op_in_place};

use message_types::{
    Body, Certificate, Commit, Frame, Give, GiveOrdered, Mark, NewView, Op, PoAck, PoSummary,
    PrePrepare, Prepare, Report, Rows, Signed, Update, rows_digest, update_digest,
};
use plain_lists::Vector;
use protocol_rules::{MARK_STEP, MOST_BOUND, MOST_NUMBER, MOST_TICKS, MOST_VIEW, WINDOW};
use quorum_sets::Sizes;

#[tactic(auto, unfolding(protocol_rules::specs::Group::most_number))]
fn is_number(x: u64) -> bool
    ensures { result ≡ is_number x }
{
    1 <= x && x <= MOST_NUMBER
}

#[tactic(auto, unfolding(protocol_rules::specs::Group::most_view))]
fn is_view(v: u64) -> bool
    ensures { result ≡ is_view v }
{
    v <= MOST_VIEW
}

#[tactic(auto, unfolding(protocol_rules::specs::Group::most_number))]
fn are_small(numbers: &[u64]) -> bool
    ensures { result ≡ list_all (λ x. nat_le x most_number) numbers.now }
{
    numbers.iter().all(|x| *x <= MOST_NUMBER)
}

fn is_row(sizes: &Sizes, row: &Vector) -> bool
    ensures { result ≡ is_row (group_of sizes.now 0) row.now }
{
    if row.is_empty() {
        return true;
    }
    row.len() == sizes.n as usize && are_small(row.as_slice())
}

fn all_are_rows(sizes: &Sizes, rows: &[Vector]) -> bool
    ensures { result ≡ list_all (is_row (group_of sizes.now 0)) rows.now }
{
    rows.iter().all(|row| is_row(sizes, row))
}

fn are_rows(sizes: &Sizes, rows: &Rows) -> bool
    ensures { result ≡ are_rows (group_of sizes.now 0) rows.now }
{
    rows.len() == sizes.n as usize && all_are_rows(sizes, rows.as_slice())
}

// Whether the prepares are of this view and number and name rows of this digest.
fn prepares_match(v: u64, s: u64, digest: &[u8; 32], prepares: &[Signed<Prepare>]) -> bool
    ensures { result ≡ list_all (λ p. nat_eq p.body.v v && nat_eq p.body.s s && bytes_eq p.body.digest digest.now) prepares.now }
{
    prepares.iter().all(|p| p.body.v == v && p.body.s == s && p.body.digest == *digest)
}

fn commits_match(v: u64, s: u64, digest: &[u8; 32], commits: &[Signed<Commit>]) -> bool
    ensures { result ≡ list_all (λ c. nat_eq c.body.v v && nat_eq c.body.s s && bytes_eq c.body.digest digest.now) commits.now }
{
    commits.iter().all(|c| c.body.v == v && c.body.s == s && c.body.digest == *digest)
}

fn acks_match(j: u32, k: u64, digest: &[u8; 32], acks: &[Signed<PoAck>]) -> bool
    ensures { result ≡ list_all (λ a. nat_eq a.body.j j && nat_eq a.body.k k && bytes_eq a.body.digest digest.now) acks.now }
{
    acks.iter().all(|a| a.body.j == j && a.body.k == k && a.body.digest == *digest)
}

fn marks_match(s: u64, marks: &[Signed<Mark>]) -> bool
    ensures { result ≡ list_all (λ m. nat_eq m.body.s s) marks.now }
{
    marks.iter().all(|m| m.body.s == s)
}

fn reports_match(v: u64, reports: &[Signed<Report>]) -> bool
    ensures { result ≡ list_all (λ r. nat_eq r.body.v v) reports.now }
{
    reports.iter().all(|r| r.body.v == v)
}

// Whether the certificate's prepares show its rows.
fn is_shown(sizes: &Sizes, certificate: &Certificate) -> bool
    requires { IsTrue (are_rows (group_of sizes.now 0) certificate.now.rows) }
    ensures { result ≡ (nat_eq (length certificate.now.prepares) sizes.now.q
        && list_all (λ p. nat_eq p.body.v certificate.now.v && nat_eq p.body.s certificate.now.s
        && bytes_eq p.body.digest (digest_of_rows certificate.now.rows)) certificate.now.prepares) }
{
    if certificate.prepares.len() != sizes.q as usize {
        return false;
    }
    let digest = rows_digest(&certificate.rows);
    prepares_match(
        certificate.v,
        certificate.s,
        &digest,
        certificate.prepares.as_slice(),
    )
}

#[tactic(auto, unfolding(protocol_rules::specs::Group::most_number, protocol_rules::specs::Group::window))]
fn certificate_in_place(sizes: &Sizes, base: u64, v: u64, certificate: &Certificate) -> bool
    requires { base ≤ MOST_NUMBER }
    ensures { result ≡ certificate_in_place (group_of sizes.now 0) base v certificate.now }
{
    base < certificate.s
        && certificate.s <= base + WINDOW
        && certificate.s <= MOST_NUMBER
        && certificate.v < v
        && are_rows(sizes, &certificate.rows)
        && is_shown(sizes, certificate)
}

fn certificates_in_place(sizes: &Sizes, base: u64, v: u64, certificates: &[Certificate]) -> bool
    requires { base ≤ MOST_NUMBER }
    ensures { result ≡ list_all (certificate_in_place (group_of sizes.now 0) base v) certificates.now }
{
    certificates.iter().all(|certificate| certificate_in_place(sizes, base, v, certificate))
}

// Whether the base is a number that marks are said for, and is shown by the marks of a quorum, or is 0 and shown by none.
#[tactic(auto, unfolding(protocol_rules::specs::Group::most_number, protocol_rules::specs::Group::mark_step))]
fn base_in_place(sizes: &Sizes, report: &Report) -> bool
    ensures small { IsTrue result → report.now.base ≤ MOST_NUMBER }
    ensures place { result ≡ (nat_eq (report.now.base % mark_step) 0 && nat_le report.now.base most_number
        && nat_eq (length report.now.marks) (if nat_eq report.now.base 0 then 0 else sizes.now.q)
        && list_all (λ m. nat_eq m.body.s report.now.base) report.now.marks) }
{
    let count = if report.base == 0 { 0 } else { sizes.q };
    report.base % MARK_STEP == 0
        && report.base <= MOST_NUMBER
        && report.marks.len() == count as usize
        && marks_match(report.base, report.marks.as_slice())
}

fn report_in_place(sizes: &Sizes, report: &Report) -> bool
    ensures { result ≡ report_in_place (group_of sizes.now 0) report.now }
{
    if !base_in_place(sizes, report) {
        return false;
    }
    1 <= report.v
        && is_view(report.v)
        && certificates_in_place(sizes, report.base, report.v, report.certificates.as_slice())
}

fn new_view_in_place(sizes: &Sizes, signer: u32, word: &NewView) -> bool
    ensures { result ≡ word_in_place (group_of sizes.now 0) signer (Body.NewView word.now) }
{
    1 <= word.v
        && is_view(word.v)
        && u64::from(signer) == word.v % u64::from(sizes.n)
        && word.reports.len() == sizes.q as usize
        && reports_match(word.v, word.reports.as_slice())
}

fn give_in_place(sizes: &Sizes, give: &Give) -> bool
    ensures { result ≡ give_in_place (group_of sizes.now 0) give.now }
{
    if give.acks.len() != sizes.q as usize {
        return false;
    }
    let digest = update_digest(&give.request.body.update.body);
    acks_match(
        give.request.signer,
        give.request.body.k,
        &digest,
        give.acks.as_slice(),
    )
}

// Whether the commits show the rows.
fn is_ordered(sizes: &Sizes, word: &GiveOrdered) -> bool
    requires { IsTrue (are_rows (group_of sizes.now 0) word.now.rows) }
    ensures { result ≡ (nat_eq (length word.now.commits) sizes.now.q
        && list_all (λ c. nat_eq c.body.v word.now.v && nat_eq c.body.s word.now.s
        && bytes_eq c.body.digest (digest_of_rows word.now.rows)) word.now.commits) }
{
    if word.commits.len() != sizes.q as usize {
        return false;
    }
    let digest = rows_digest(&word.rows);
    commits_match(word.v, word.s, &digest, word.commits.as_slice())
}

fn give_ordered_in_place(sizes: &Sizes, word: &GiveOrdered) -> bool
    ensures { result ≡ word_in_place (group_of sizes.now 0) 0 (Body.GiveOrdered word.now) }
{
    is_number(word.s) && is_view(word.v) && are_rows(sizes, &word.rows) && is_ordered(sizes, word)
}

#[tactic(auto, unfolding(protocol_rules::specs::Group::most_number))]
fn summary_in_place(sizes: &Sizes, word: &PoSummary) -> bool
    ensures { result ≡ word_in_place (group_of sizes.now 0) 0 (Body.PoSummary word.now) }
{
    word.numbers.len() == sizes.n as usize && are_small(word.numbers.as_slice())
}

fn pre_prepare_in_place(sizes: &Sizes, signer: u32, word: &PrePrepare) -> bool
    ensures { result ≡ word_in_place (group_of sizes.now 0) signer (Body.PrePrepare word.now) }
{
    is_view(word.v) && is_number(word.s) && u64::from(signer) == word.v % u64::from(sizes.n)
}

// What always is so of a number of 64 bits, and of an operation's numbers.
fn is_64_bits(x: u64) -> bool
    ensures { result ≡ in_64_bits x }
{
    x <= u64::MAX
}

fn is_32_bits(x: u32) -> bool
    ensures { result ≡ in_32_bits x }
{
    x <= u32::MAX
}

fn is_signed_64_bits(x: i64) -> bool
    ensures { result ≡ in_signed_64_bits x }
{
    i64::MIN <= x && x <= i64::MAX
}

fn op_in_place(op: Op) -> bool
    ensures { result ≡ op_in_place op }
{
    match op {
        Op::Reading { point, value } => is_32_bits(point) && is_signed_64_bits(value),
        Op::Set { point, value } => is_32_bits(point) && is_signed_64_bits(value),
        Op::Ack { alarm } => is_32_bits(alarm),
    }
}

// Whether the update is its client's.
fn update_in_place(sizes: &Sizes, clients: u32, signer: u32, update: &Update) -> bool
    ensures { result ≡ (nat_lt update.now.client clients && in_32_bits update.now.client
        && nat_eq signer (sizes.now.n + update.now.client) && in_64_bits update.now.t && op_in_place update.now.op) }
{
    update.client < clients
        && is_32_bits(update.client)
        && u64::from(signer) == u64::from(sizes.n) + u64::from(update.client)
        && is_64_bits(update.t)
        && op_in_place(update.op)
}

// What a master's word asks for besides its signer.
#[tactic(auto, unfolding(protocol_rules::specs::Group::most_view, protocol_rules::specs::Group::mark_step))]
fn word_in_place(sizes: &Sizes, clients: u32, signer: u32, body: &Body) -> bool
    ensures { result ≡ word_in_place (group_of sizes.now clients) signer body.now }
{
    match body {
        Body::Update(_) => false,
        Body::PoRequest(word) => is_number(word.k),
        Body::PoAck(word) => word.j < sizes.n && is_number(word.k),
        Body::PoSummary(word) => summary_in_place(sizes, word),
        Body::PrePrepare(word) => pre_prepare_in_place(sizes, signer, word),
        Body::Prepare(word) => is_view(word.v) && is_number(word.s),
        Body::Commit(word) => is_view(word.v) && is_number(word.s),
        Body::Ping(_) => true,
        Body::Pong(word) => word.to < sizes.n,
        Body::Rtt(word) => word.to < sizes.n && word.ticks <= MOST_TICKS,
        Body::TatReport(word) => is_view(word.v) && word.ticks <= MOST_TICKS,
        Body::TatBound(word) => is_view(word.v) && word.ticks <= MOST_BOUND,
        Body::Suspect(word) => word.v < MOST_VIEW,
        Body::Report(word) => report_in_place(sizes, word),
        Body::NewView(word) => new_view_in_place(sizes, signer, word),
        Body::AskUpdate(word) => word.j < sizes.n && is_number(word.k),
        Body::Give(word) => give_in_place(sizes, word),
        Body::AskOrder(word) => is_number(word.s),
        Body::GiveOrdered(word) => give_ordered_in_place(sizes, word),
        Body::Voucher(word) => word.client < clients && 1 <= word.number,
        Body::Mark(word) => is_number(word.s) && word.s % MARK_STEP == 0,
    }
}

/// Whether a frame is in its place in a group of these sizes with so many clients. It takes no memory.
pub fn is_in_place(sizes: &Sizes, clients: u32, frame: &Frame) -> bool
    ensures { result ≡ in_place (group_of sizes.now clients) frame.now }
{
    match &frame.body {
        Body::Update(update) => update_in_place(sizes, clients, frame.signer, update),
        body => frame.signer < sizes.n && word_in_place(sizes, clients, frame.signer, body),
    }
}
