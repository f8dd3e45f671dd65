//! The fields of words.
ghost use Rattle.std.specs.Prelude.{◌≡◌, ◌≤◌, ◌++◌, OnOk, codes, decimal, string_bytes};
ghost use Rattle.scenario_file.specs.Actors.{actors_of};
ghost use Rattle.run_lines.specs.Texts.{op_text};
ghost use Rattle.run_page.specs.Words.{base_text, digest_text, fields_text, give_text, given_order_text, marks_text, new_view_text, offer_text, order_text, report_text, request_text, update_text, vote_text, voucher_text, word_text};

use crate::lists::{put_certificates, put_numbers, put_rows, put_signers};
use message_types::{
    Body, Give, GiveOrdered, Mark, NewView, Op, Order, PoAck, PoRequest, PrePrepare, Report, Rtt,
    Signed, Update, Voucher,
};
use plain_lists::Want;
use run_lines::{kind_of, notice_name, put_actor, put_client};
use scenario_file::Cast;
use std::alloc::Global;

/// Appends a word: its signer, its kind and its fields.
#[tactic(auto, unfolding(crate::specs::Words::word_text))]
pub(crate) fn put_word(
    alloc: Global,
    text: &mut String,
    cast: Cast,
    signer: u32,
    body: &Body,
) -> Result<(), Want>
    requires { actors_of cast ≤ 26 }
    ensures { OnOk result (string_bytes text.new ≡ string_bytes text.old ++ word_text cast signer body.now) }
{
    put_actor(text, cast, signer)?;
    text.push_str(" ")?;
    text.push_str(kind_of(body).name())?;
    put_fields(alloc, text, cast, body)
}

#[tactic(auto, unfolding(crate::specs::Words::fields_text))]
fn put_fields(alloc: Global, text: &mut String, cast: Cast, body: &Body) -> Result<(), Want>
    requires { actors_of cast ≤ 26 }
    ensures { OnOk result (string_bytes text.new ≡ string_bytes text.old ++ fields_text cast body.now) }
{
    match body {
        Body::Update(word) => put_update(text, cast, word),
        Body::PoRequest(word) => put_request(text, cast, word),
        Body::PoAck(word) => put_ack(alloc, text, word),
        Body::PoSummary(word) => put_numbers(text, " ", word.numbers.as_slice()),
        Body::PrePrepare(word) => put_offer(text, cast, word),
        Body::Prepare(word) => put_vote(alloc, text, word.v, word.s, &word.digest),
        Body::Commit(word) => put_vote(alloc, text, word.v, word.s, &word.digest),
        Body::Ping(word) => put_number(text, word.number),
        Body::Pong(word) => put_named(text, word.to, word.number),
        Body::Rtt(word) => put_rtt(text, word),
        Body::TatReport(word) => put_pair(text, word.v, word.ticks),
        Body::TatBound(word) => put_pair(text, word.v, word.ticks),
        Body::Suspect(word) => put_number(text, word.v),
        Body::Report(word) => put_report(text, cast, word),
        Body::NewView(word) => put_new_view(text, cast, word),
        Body::AskUpdate(word) => put_named(text, word.j, word.k),
        Body::Give(word) => put_give(text, cast, word),
        Body::AskOrder(word) => put_number(text, word.s),
        Body::GiveOrdered(word) => put_given_order(text, cast, word),
        Body::Voucher(word) => put_voucher(text, cast, word),
        Body::Mark(word) => put_number(text, word.s),
    }
}

fn put_number(text: &mut String, number: u64) -> Result<(), Want>
    ensures { OnOk result (string_bytes text.new ≡ string_bytes text.old ++ (codes " " ++ decimal number)) }
{
    write!(text, " {number}")?;
    Ok(())
}

fn put_pair(text: &mut String, first: u64, second: u64) -> Result<(), Want>
    ensures { OnOk result (string_bytes text.new ≡ string_bytes text.old ++ (codes " " ++ decimal first ++ codes " " ++ decimal second)) }
{
    write!(text, " {first} {second}")?;
    Ok(())
}

/// A master, and a number of it.
fn put_named(text: &mut String, master: u32, number: u64) -> Result<(), Want>
    ensures { OnOk result (string_bytes text.new ≡ string_bytes text.old ++ (codes " m" ++ decimal master ++ codes " " ++ decimal number)) }
{
    write!(text, " m{master} {number}")?;
    Ok(())
}

fn put_rtt(text: &mut String, word: &Rtt) -> Result<(), Want>
    ensures { OnOk result (string_bytes text.new ≡ string_bytes text.old ++ (codes " m" ++ decimal word.now.to ++ codes " " ++ decimal word.now.number ++ codes " " ++ decimal word.now.ticks)) }
{
    put_named(text, word.to, word.number)?;
    put_number(text, word.ticks)
}

/// The beginning of a digest, behind a space.
#[tactic(auto, unfolding(crate::specs::Words::digest_text))]
fn put_digest(alloc: Global, text: &mut String, digest: &[u8; 32]) -> Result<(), Want>
    ensures { OnOk result (string_bytes text.new ≡ string_bytes text.old ++ digest_text digest.now) }
{
    text.push_str(" ")?;
    let digits = hex::encode(alloc, &digest[..4])?;
    text.push_str(digits.as_str())?;
    Ok(())
}

fn put_ack(alloc: Global, text: &mut String, word: &PoAck) -> Result<(), Want>
    ensures { OnOk result (string_bytes text.new ≡ string_bytes text.old ++ (codes " m" ++ decimal word.now.j ++ codes " " ++ decimal word.now.k ++ digest_text word.now.digest)) }
{
    put_named(text, word.j, word.k)?;
    put_digest(alloc, text, &word.digest)
}

#[tactic(auto, unfolding(crate::specs::Words::vote_text))]
fn put_vote(alloc: Global, text: &mut String, v: u64, s: u64, digest: &[u8; 32]) -> Result<(), Want>
    ensures { OnOk result (string_bytes text.new ≡ string_bytes text.old ++ vote_text v s digest.now) }
{
    put_pair(text, v, s)?;
    put_digest(alloc, text, digest)
}

#[tactic(auto, unfolding(crate::specs::Words::update_text))]
fn put_update(text: &mut String, cast: Cast, word: &Update) -> Result<(), Want>
    ensures { OnOk result (string_bytes text.new ≡ string_bytes text.old ++ update_text cast word.now) }
{
    let t = word.t;
    text.push_str(" ")?;
    put_client(text, cast, word.client)?;
    write!(text, " {t} ")?;
    put_op(text, &word.op)
}

#[tactic(auto, unfolding(crate::specs::Words::request_text))]
fn put_request(text: &mut String, cast: Cast, word: &PoRequest) -> Result<(), Want>
    ensures { OnOk result (string_bytes text.new ≡ string_bytes text.old ++ request_text cast word.now) }
{
    put_number(text, word.k)?;
    put_update(text, cast, &word.update.body)
}

#[tactic(auto, unfolding(crate::specs::Words::offer_text))]
fn put_offer(text: &mut String, cast: Cast, word: &PrePrepare) -> Result<(), Want>
    requires { actors_of cast ≤ 26 }
    ensures { OnOk result (string_bytes text.new ≡ string_bytes text.old ++ offer_text cast word.now) }
{
    put_pair(text, word.v, word.s)?;
    put_rows(text, cast, word.frames.as_slice())
}

#[tactic(auto, unfolding(crate::specs::Words::report_text))]
fn put_report(text: &mut String, cast: Cast, word: &Report) -> Result<(), Want>
    requires { actors_of cast ≤ 26 }
    ensures { OnOk result (string_bytes text.new ≡ string_bytes text.old ++ report_text cast word.now) }
{
    put_base(text, word.v, word.base)?;
    put_marks(text, cast, word.marks.as_slice())?;
    put_certificates(text, word.certificates.as_slice())
}

#[tactic(auto, unfolding(crate::specs::Words::marks_text))]
fn put_marks(text: &mut String, cast: Cast, marks: &[Signed<Mark>]) -> Result<(), Want>
    requires { actors_of cast ≤ 26 }
    ensures { OnOk result (string_bytes text.new ≡ string_bytes text.old ++ marks_text cast marks.now) }
{
    put_signers(text, cast, marks)?;
    text.push_str(" certificates")?;
    Ok(())
}

#[tactic(auto, unfolding(crate::specs::Words::base_text))]
fn put_base(text: &mut String, v: u64, base: u64) -> Result<(), Want>
    ensures { OnOk result (string_bytes text.new ≡ string_bytes text.old ++ base_text v base) }
{
    write!(text, " {v} base {base} marks")?;
    Ok(())
}

#[tactic(auto, unfolding(crate::specs::Words::new_view_text))]
fn put_new_view(text: &mut String, cast: Cast, word: &NewView) -> Result<(), Want>
    requires { actors_of cast ≤ 26 }
    ensures { OnOk result (string_bytes text.new ≡ string_bytes text.old ++ new_view_text cast word.now) }
{
    put_number(text, word.v)?;
    put_signers(text, cast, word.reports.as_slice())
}

#[tactic(auto, unfolding(crate::specs::Words::give_text))]
fn put_give(text: &mut String, cast: Cast, word: &Give) -> Result<(), Want>
    requires { actors_of cast ≤ 26 }
    ensures { OnOk result (string_bytes text.new ≡ string_bytes text.old ++ give_text cast word.now) }
{
    put_named(text, word.request.signer, word.request.body.k)?;
    put_signers(text, cast, word.acks.as_slice())
}

#[tactic(auto, unfolding(crate::specs::Words::given_order_text))]
fn put_given_order(text: &mut String, cast: Cast, word: &GiveOrdered) -> Result<(), Want>
    requires { actors_of cast ≤ 26 }
    ensures { OnOk result (string_bytes text.new ≡ string_bytes text.old ++ given_order_text cast word.now) }
{
    put_pair(text, word.s, word.v)?;
    put_signers(text, cast, word.commits.as_slice())
}

#[tactic(auto, unfolding(crate::specs::Words::voucher_text))]
fn put_voucher(text: &mut String, cast: Cast, word: &Voucher) -> Result<(), Want>
    ensures { OnOk result (string_bytes text.new ≡ string_bytes text.old ++ voucher_text cast word.now) }
{
    text.push_str(" ")?;
    put_client(text, cast, word.client)?;
    put_number(text, word.number)?;
    put_order(text, word.order)
}

#[tactic(auto, unfolding(crate::specs::Words::order_text))]
fn put_order(text: &mut String, order: Order) -> Result<(), Want>
    ensures { OnOk result (string_bytes text.new ≡ string_bytes text.old ++ order_text order) }
{
    match order {
        Order::Write { point, raw } => write!(text, " write {point} {raw}")?,
        Order::Notice(notice) => {
            let (t, number) = (notice.t, notice.number);
            text.push_str(" notice ")?;
            text.push_str(notice_name(notice.what))?;
            write!(text, " {t} {number}")?;
        }
    }
    Ok(())
}

#[tactic(auto, unfolding(run_lines::specs::Texts::op_text))]
fn put_op(text: &mut String, op: &Op) -> Result<(), Want>
    ensures { OnOk result (string_bytes text.new ≡ string_bytes text.old ++ op_text op.now) }
{
    match *op {
        Op::Reading { point, value } => write!(text, "reading {point} {value}")?,
        Op::Set { point, value } => write!(text, "set {point} {value}")?,
        Op::Ack { alarm } => write!(text, "ack {alarm}")?,
    }
    Ok(())
}
