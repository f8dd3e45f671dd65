ghost use Rattle.std.specs.Prelude.{◌≡◌, map, Some};
ghost use Rattle.message_types.specs.Spelling.{is_rising};
ghost use Rattle.script_grammar.specs.Faults.{Answers, said};
ghost use Rattle.script_grammar.specs.Lines.{texts};
ghost use Rattle.script_grammar.specs.Numbers.{wide_in};
ghost use Rattle.script_lines.specs.WordFields.{raw_in, number_in, numbers_in, one_and_number_in, request_in, digest_in, poack_in, summary_in, preprepare_in, vote_in, rtt_in, item_of, item_in, items_in, without_base, base_and_items_in, report_in, newview_in, write_in, notice_kind_in, notice_in, order_in, voucher_in};

use message_types::{MOST_CERTIFICATES, MOST_LISTED, Notice, NoticeKind, Order};
use plain_lists::Items;
use play_words::{Item, Ref, Word};
use script_grammar::{
    Allowed, Company, LineRefusal, Part, both, bytes, each, narrow, parts, short, wide,
};
use std::alloc::Global;

/// The most numbers that a summary may have.
const MOST_NUMBERS: usize = MOST_LISTED as usize;

/// The most certificates that a report may have.
const MOST_ITEMS: usize = MOST_CERTIFICATES as usize;

/// Numbers of 64 bits.
#[derive(Drop)]
struct WideNumbers;

impl Part<u64> for WideNumbers {
    ghost use Rattle.script_grammar.specs.Numbers.{wide_in};

    ghost reads = { λ part text. wide_in text };

    fn read(&self, text: &str) -> Result<u64, LineRefusal> {
        wide(text)
    }
}

/// Certificates of a report.
#[derive(Drop)]
struct CertificateNames {
    alloc: Global,
}

impl Part<Item> for CertificateNames {
    ghost use Rattle.script_lines.specs.WordFields.{item_in};

    ghost reads = { λ part text. item_in text };

    #[tactic(auto, unfolding(crate::specs::WordFields::item_in))]
    fn read(&self, text: &str) -> Result<Item, LineRefusal> {
        let numbers = parts(self.alloc, text, ':')?;
        item_of(numbers.as_slice())
    }
}

fn item_of(numbers: &[&str]) -> Result<Item, LineRefusal>
    ensures { Answers result (item_of (texts numbers.now)) }
{
    match numbers {
        [s, v] => {
            let (s, v) = both(wide(s), wide(v))?;
            Ok(Item { s, v })
        }
        _ => Err(LineRefusal::BadLine),
    }
}

pub fn raw(alloc: Global, fields: &[&str]) -> Result<Word, LineRefusal>
    ensures { Answers result (raw_in (texts fields.now)) }
{
    match fields {
        [hex] => Ok(Word::Raw {
            bytes: bytes(alloc, hex)?,
        }),
        _ => Err(LineRefusal::BadLine),
    }
}

/// One number.
pub fn one_number(fields: &[&str]) -> Result<u64, LineRefusal>
    ensures { Answers result (number_in (texts fields.now)) }
{
    match fields {
        [number] => wide(number),
        _ => Err(LineRefusal::BadLine),
    }
}

/// Two numbers.
pub fn two_numbers(fields: &[&str]) -> Result<(u64, u64), LineRefusal>
    ensures { Answers result (numbers_in (texts fields.now)) }
{
    match fields {
        [first, second] => both(wide(first), wide(second)),
        _ => Err(LineRefusal::BadLine),
    }
}

/// The number of an actor or a client, and another number.
pub fn one_and_number(fields: &[&str]) -> Result<(u32, u64), LineRefusal>
    ensures { Answers result (one_and_number_in (texts fields.now)) }
{
    match fields {
        [one, number] => both(narrow(one), wide(number)),
        _ => Err(LineRefusal::BadLine),
    }
}

pub fn request(company: &Company<'_>, fields: &[&str]) -> Result<Word, LineRefusal>
    ensures { Answers result (request_in company.now.cast (texts fields.now)) }
{
    match fields {
        [k, update] => {
            let (k, update) = both(wide(k), company.frame(Allowed::Updates, update))?;
            Ok(Word::PoRequest { k, update })
        }
        _ => Err(LineRefusal::BadLine),
    }
}

/// A digest is `@` and the frame that it is taken of.
#[tactic(auto, unfolding(crate::specs::WordFields::digest_in))]
fn digest(company: &Company<'_>, text: &str) -> Result<Ref, LineRefusal>
    ensures { Answers result (digest_in company.now.cast text.now) }
{
    match text.strip_prefix('@') {
        Some(frame) => company.frame(Allowed::Digested, frame),
        None => Err(LineRefusal::BadLine),
    }
}

pub fn poack(company: &Company<'_>, fields: &[&str]) -> Result<Word, LineRefusal>
    ensures { Answers result (poack_in company.now.cast (texts fields.now)) }
{
    match fields {
        [j, k, digest_text] => {
            let k_and_digest = both(wide(k), digest(company, digest_text));
            let (j, (k, digest)) = both(narrow(j), k_and_digest)?;
            Ok(Word::PoAck { j, k, digest })
        }
        _ => Err(LineRefusal::BadLine),
    }
}

pub fn summary(alloc: Global, fields: &[&str]) -> Result<Word, LineRefusal>
    ensures { Answers result (summary_in (texts fields.now)) }
{
    if fields.len() > MOST_NUMBERS {
        return Err(LineRefusal::BadLine);
    }
    Ok(Word::PoSummary {
        numbers: each(alloc, &WideNumbers, fields)?,
    })
}

pub fn preprepare(company: &Company<'_>, fields: &[&str]) -> Result<Word, LineRefusal>
    ensures { Answers result (preprepare_in company.now.cast (texts fields.now)) }
{
    match fields {
        [v, s, summaries @ ..] => {
            let s_and_frames = both(wide(s), company.frames(Allowed::Summaries, summaries));
            let (v, (s, frames)) = both(wide(v), s_and_frames)?;
            Ok(Word::PrePrepare { v, s, frames })
        }
        _ => Err(LineRefusal::BadLine),
    }
}

/// A view, a number and a digest.
pub fn vote(company: &Company<'_>, fields: &[&str]) -> Result<(u64, (u64, Ref)), LineRefusal>
    ensures { Answers result (vote_in company.now.cast (texts fields.now)) }
{
    match fields {
        [v, s, digest_text] => {
            let s_and_digest = both(wide(s), digest(company, digest_text));
            both(wide(v), s_and_digest)
        }
        _ => Err(LineRefusal::BadLine),
    }
}

pub fn rtt(fields: &[&str]) -> Result<Word, LineRefusal>
    ensures { Answers result (rtt_in (texts fields.now)) }
{
    match fields {
        [to, number, ticks] => {
            let number_and_ticks = both(wide(number), wide(ticks));
            let (to, (number, ticks)) = both(narrow(to), number_and_ticks)?;
            Ok(Word::Rtt { to, number, ticks })
        }
        _ => Err(LineRefusal::BadLine),
    }
}

fn numbers_rise(items: &[Item]) -> bool
    ensures { result ≡ is_rising (map (λ item. item.s) items.now) }
{
    match items {
        [first, second, ..] => first.s < second.s && numbers_rise(&items[1..]),
        _ => true,
    }
}

/// At most 16 certificates, whose numbers rise.
#[tactic(auto, unfolding(crate::specs::WordFields::items_in))]
fn items(alloc: Global, fields: &[&str]) -> Result<Items<Item>, LineRefusal>
    ensures { Answers result (items_in (texts fields.now)) }
{
    let items = each(alloc, &CertificateNames { alloc }, fields)?;
    if items.len() <= MOST_ITEMS && numbers_rise(items.as_slice()) {
        Ok(items)
    } else {
        Err(LineRefusal::BadLine)
    }
}

fn items_alone(alloc: Global, fields: &[&str]) -> Result<(Option<u64>, Items<Item>), LineRefusal>
    ensures { Answers result (said without_base (items_in (texts fields.now))) }
{
    Ok((None, items(alloc, fields)?))
}

fn based(base: &str) -> Result<Option<u64>, LineRefusal>
    ensures { Answers result (said Some (wide_in base.now)) }
{
    Ok(Some(wide(base)?))
}

/// The certificates of a report, with the number from which it goes on before them or not.
fn base_and_items(alloc: Global, fields: &[&str]) -> Result<(Option<u64>, Items<Item>), LineRefusal>
    ensures { Answers result (base_and_items_in (texts fields.now)) }
{
    match fields {
        [what, base, rest @ ..] if *what == "base" => both(based(base), items(alloc, rest)),
        _ => items_alone(alloc, fields),
    }
}

pub fn report(alloc: Global, fields: &[&str]) -> Result<Word, LineRefusal>
    ensures { Answers result (report_in (texts fields.now)) }
{
    match fields {
        [] => Err(LineRefusal::BadLine),
        [v, rest @ ..] => {
            let (v, (base, items)) = both(wide(v), base_and_items(alloc, rest))?;
            Ok(Word::Report { v, base, items })
        }
    }
}

pub fn newview(company: &Company<'_>, fields: &[&str]) -> Result<Word, LineRefusal>
    ensures { Answers result (newview_in company.now.cast (texts fields.now)) }
{
    match fields {
        [] => Err(LineRefusal::BadLine),
        [v, frames @ ..] => {
            let (v, reports) = both(wide(v), company.frames(Allowed::Reports, frames))?;
            Ok(Word::NewView { v, reports })
        }
    }
}

fn write(fields: &[&str]) -> Result<Order, LineRefusal>
    ensures { Answers result (write_in (texts fields.now)) }
{
    match fields {
        [point, raw] => {
            let (point, raw) = both(narrow(point), short(raw))?;
            Ok(Order::Write { point, raw })
        }
        _ => Err(LineRefusal::BadLine),
    }
}

/// What a notice tells, by its number.
fn notice_kind(what: &str) -> Result<NoticeKind, LineRefusal>
    ensures { result ≡ notice_kind_in what.now }
{
    match what {
        "1" => Ok(NoticeKind::Done),
        "2" => Ok(NoticeKind::Denied),
        "3" => Ok(NoticeKind::NoPoint),
        "4" => Ok(NoticeKind::OutOfRange),
        "5" => Ok(NoticeKind::NotWritable),
        "6" => Ok(NoticeKind::NoAlarm),
        "7" => Ok(NoticeKind::Raised),
        "8" => Ok(NoticeKind::Cleared),
        "9" => Ok(NoticeKind::WrongPart),
        _ => Err(LineRefusal::BadLine),
    }
}

fn notice(fields: &[&str]) -> Result<Order, LineRefusal>
    ensures { Answers result (notice_in (texts fields.now)) }
{
    match fields {
        [what, t, number] => {
            let t_and_number = both(wide(t), narrow(number));
            let (what, (t, number)) = both(notice_kind(what), t_and_number)?;
            Ok(Order::Notice(Notice { what, t, number }))
        }
        _ => Err(LineRefusal::BadLine),
    }
}

fn order(fields: &[&str]) -> Result<Order, LineRefusal>
    ensures { Answers result (order_in (texts fields.now)) }
{
    match fields {
        [] => Err(LineRefusal::BadLine),
        [what, rest @ ..] => {
            if *what == "write" {
                write(rest)
            } else if *what == "notice" {
                notice(rest)
            } else {
                Err(LineRefusal::BadLine)
            }
        }
    }
}

pub fn voucher(fields: &[&str]) -> Result<Word, LineRefusal>
    ensures { Answers result (voucher_in (texts fields.now)) }
{
    match fields {
        [client, number, rest @ ..] => {
            let number_and_order = both(wide(number), order(rest));
            let (client, (number, order)) = both(narrow(client), number_and_order)?;
            Ok(Word::Voucher {
                client,
                number,
                order,
            })
        }
        _ => Err(LineRefusal::BadLine),
    }
}
