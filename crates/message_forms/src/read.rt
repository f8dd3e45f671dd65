ghost use Rattle.std.specs.Prelude.{◌≡◌, IsTrue, IsOk, IfOk, IfErr};
ghost use Rattle.message_types.specs.Texts.{frame_text};
ghost use Rattle.message_types.specs.Spelling.{has_spelling};
ghost use Rattle.message_types.specs.declared.signed.Signed.{Signed};
ghost use Rattle.message_types.specs.declared.body.Body.{Body};
ghost use Rattle.message_forms.specs.Forms.{pre_prepare_at, ping_at, pong_at, rtt_at, tat_report_at, tat_bound_at, suspect_at, new_view_at, ask_update_at, give_at, ask_order_at, give_ordered_at, what_at, notice_at, order_at, voucher_at, measure_kinds, view_kinds, kinds, body_at, frame_at, first_fault};
ghost use Rattle.message_forms.specs.Widths.{FitsFields};
ghost use Rattle.message_forms.specs.Gives.{Gives, Answers, IsFault};

use crate::form_reader::FormReader;
use crate::pieces::{Readable, frames, signed};
use crate::refusal::FormRefusal;
use crate::words::{ack, commit, mark, prepare, report, request, rows, summary, update};
use message_types::{
    AskOrder, AskUpdate, Body, Frame, Give, GiveOrdered, MOST_BODY_BYTES, NewView, Notice,
    NoticeKind, Order, Ping, Pong, PrePrepare, Rtt, Suspect, TatBound, TatReport, Voucher,
};
use std::alloc::Global;

#[tactic(auto, unfolding(crate::specs::Forms::pre_prepare_at))]
fn pre_prepare(alloc: Global, reader: &mut FormReader<'_>) -> Result<PrePrepare, FormRefusal>
    ensures { Gives result reader.new (pre_prepare_at reader.old) }
{
    let v = reader.u64()?;
    let s = reader.u64()?;
    let frames = frames(alloc, reader)?;
    Ok(PrePrepare { v, s, frames })
}

#[tactic(auto, unfolding(crate::specs::Forms::pong_at))]
fn pong(reader: &mut FormReader<'_>) -> Result<Pong, FormRefusal>
    ensures { Gives result reader.new (pong_at reader.old) }
{
    let to = reader.u32()?;
    let number = reader.u64()?;
    Ok(Pong { to, number })
}

#[tactic(auto, unfolding(crate::specs::Forms::rtt_at))]
fn rtt(reader: &mut FormReader<'_>) -> Result<Rtt, FormRefusal>
    ensures { Gives result reader.new (rtt_at reader.old) }
{
    let to = reader.u32()?;
    let number = reader.u64()?;
    let ticks = reader.u64()?;
    Ok(Rtt { to, number, ticks })
}

#[tactic(auto, unfolding(crate::specs::Forms::tat_report_at))]
fn tat_report(reader: &mut FormReader<'_>) -> Result<TatReport, FormRefusal>
    ensures { Gives result reader.new (tat_report_at reader.old) }
{
    let v = reader.u64()?;
    let ticks = reader.u64()?;
    Ok(TatReport { v, ticks })
}

#[tactic(auto, unfolding(crate::specs::Forms::tat_bound_at))]
fn tat_bound(reader: &mut FormReader<'_>) -> Result<TatBound, FormRefusal>
    ensures { Gives result reader.new (tat_bound_at reader.old) }
{
    let v = reader.u64()?;
    let ticks = reader.u64()?;
    Ok(TatBound { v, ticks })
}

#[tactic(auto, unfolding(crate::specs::Forms::new_view_at))]
fn new_view(alloc: Global, reader: &mut FormReader<'_>) -> Result<NewView, FormRefusal>
    ensures { Gives result reader.new (new_view_at reader.old) }
{
    let v = reader.u64()?;
    let reports = frames(alloc, reader)?;
    Ok(NewView { v, reports })
}

#[tactic(auto, unfolding(crate::specs::Forms::ask_update_at))]
fn ask_update(reader: &mut FormReader<'_>) -> Result<AskUpdate, FormRefusal>
    ensures { Gives result reader.new (ask_update_at reader.old) }
{
    let j = reader.u32()?;
    let k = reader.u64()?;
    Ok(AskUpdate { j, k })
}

#[tactic(auto, unfolding(crate::specs::Forms::give_at))]
fn give(alloc: Global, reader: &mut FormReader<'_>) -> Result<Give, FormRefusal>
    ensures { Gives result reader.new (give_at reader.old) }
{
    let request = signed(alloc, reader, None)?;
    let acks = frames(alloc, reader)?;
    Ok(Give { request, acks })
}

#[tactic(auto, unfolding(crate::specs::Forms::give_ordered_at))]
fn give_ordered(alloc: Global, reader: &mut FormReader<'_>) -> Result<GiveOrdered, FormRefusal>
    ensures { Gives result reader.new (give_ordered_at reader.old) }
{
    let s = reader.u64()?;
    let v = reader.u64()?;
    let rows = rows(alloc, reader)?;
    let commits = frames(alloc, reader)?;
    Ok(GiveOrdered {
        s,
        v,
        rows,
        commits,
    })
}

#[tactic(auto, unfolding(crate::specs::Forms::what_at))]
fn what(reader: &mut FormReader<'_>) -> Result<NoticeKind, FormRefusal>
    ensures { Gives result reader.new (what_at reader.old) }
{
    let place = reader.place();
    match reader.u8()? {
        1 => Ok(NoticeKind::Done),
        2 => Ok(NoticeKind::Denied),
        3 => Ok(NoticeKind::NoPoint),
        4 => Ok(NoticeKind::OutOfRange),
        5 => Ok(NoticeKind::NotWritable),
        6 => Ok(NoticeKind::NoAlarm),
        7 => Ok(NoticeKind::Raised),
        8 => Ok(NoticeKind::Cleared),
        9 => Ok(NoticeKind::WrongPart),
        _ => Err(FormRefusal::UnknownKind { place }),
    }
}

#[tactic(auto, unfolding(crate::specs::Forms::notice_at))]
fn notice(reader: &mut FormReader<'_>) -> Result<Notice, FormRefusal>
    ensures { Gives result reader.new (notice_at reader.old) }
{
    let what = what(reader)?;
    let t = reader.u64()?;
    let number = reader.u32()?;
    Ok(Notice { what, t, number })
}

#[tactic(auto, unfolding(crate::specs::Forms::order_at))]
fn order(reader: &mut FormReader<'_>) -> Result<Order, FormRefusal>
    ensures { Gives result reader.new (order_at reader.old) }
{
    let place = reader.place();
    match reader.u8()? {
        1 => {
            let point = reader.u32()?;
            let raw = reader.u16()?;
            Ok(Order::Write { point, raw })
        }
        2 => Ok(Order::Notice(notice(reader)?)),
        _ => Err(FormRefusal::UnknownKind { place }),
    }
}

#[tactic(auto, unfolding(crate::specs::Forms::voucher_at))]
fn voucher(reader: &mut FormReader<'_>) -> Result<Voucher, FormRefusal>
    ensures { Gives result reader.new (voucher_at reader.old) }
{
    let client = reader.u32()?;
    let number = reader.u64()?;
    let order = order(reader)?;
    Ok(Voucher {
        client,
        number,
        order,
    })
}

#[tactic(auto, unfolding(crate::specs::Forms::ping_at, crate::specs::Forms::suspect_at))]
fn measure(reader: &mut FormReader<'_>, kind: u16, place: u64) -> Result<Body, FormRefusal>
    ensures { Gives result reader.new (measure_kinds kind place reader.old) }
{
    match kind {
        8 => Ok(Body::Ping(Ping {
            number: reader.u64()?,
        })),
        9 => Ok(Body::Pong(pong(reader)?)),
        10 => Ok(Body::Rtt(rtt(reader)?)),
        11 => Ok(Body::TatReport(tat_report(reader)?)),
        12 => Ok(Body::TatBound(tat_bound(reader)?)),
        13 => Ok(Body::Suspect(Suspect { v: reader.u64()? })),
        _ => Err(FormRefusal::UnknownKind { place }),
    }
}

#[tactic(auto, unfolding(crate::specs::Forms::ask_order_at))]
fn later_kind(
    alloc: Global,
    reader: &mut FormReader<'_>,
    kind: u16,
    place: u64,
) -> Result<Body, FormRefusal>
    ensures { Gives result reader.new (view_kinds kind place reader.old) }
{
    match kind {
        14 => Ok(Body::Report(report(alloc, reader)?)),
        15 => Ok(Body::NewView(new_view(alloc, reader)?)),
        16 => Ok(Body::AskUpdate(ask_update(reader)?)),
        17 => Ok(Body::Give(give(alloc, reader)?)),
        18 => Ok(Body::AskOrder(AskOrder { s: reader.u64()? })),
        19 => Ok(Body::GiveOrdered(give_ordered(alloc, reader)?)),
        20 => Ok(Body::Voucher(voucher(reader)?)),
        _ => measure(reader, kind, place),
    }
}

fn any_kind(
    alloc: Global,
    reader: &mut FormReader<'_>,
    kind: u16,
    place: u64,
) -> Result<Body, FormRefusal>
    ensures { Gives result reader.new (kinds kind place reader.old) }
{
    match kind {
        1 => Ok(Body::Update(update(reader)?)),
        2 => Ok(Body::PoRequest(request(alloc, reader)?)),
        3 => Ok(Body::PoAck(ack(reader)?)),
        4 => Ok(Body::PoSummary(summary(alloc, reader)?)),
        5 => Ok(Body::PrePrepare(pre_prepare(alloc, reader)?)),
        6 => Ok(Body::Prepare(prepare(reader)?)),
        7 => Ok(Body::Commit(commit(reader)?)),
        21 => Ok(Body::Mark(mark(reader)?)),
        _ => later_kind(alloc, reader, kind, place),
    }
}

impl Readable for Body {
    ghost form = { body_at };

    #[tactic(auto, unfolding(crate::specs::Forms::body_at))]
    fn read(alloc: Global, reader: &mut FormReader<'_>) -> Result<Self, FormRefusal> {
        let place = reader.place();
        let kind = reader.u16()?;
        any_kind(alloc, reader, kind, place)
    }
}

// What the grammar gives.
#[tactic(auto, unfolding(crate::specs::Forms::frame_at))]
fn frame(alloc: Global, bytes: &[u8]) -> Result<Frame, FormRefusal>
    ensures { Answers result (frame_at bytes.now) }
{
    if bytes.len() > MOST_BODY_BYTES as usize {
        return Err(FormRefusal::TooLong { place: 0 });
    }
    let mut reader = FormReader::over(bytes);
    let frame = signed(alloc, &mut reader, None)?;
    reader.end()?;
    Ok(frame)
}

/// The frame that the bytes spell, all of them. Else the first fault from the front.
pub fn read_frame(alloc: Global, bytes: &[u8]) -> Result<Frame, FormRefusal>
    // What is read is spelled so.
    ensures found { IfOk result (λ frame. bytes.now ≡ frame_text frame) }
    ensures spelled { IfOk result (λ frame. IsTrue (has_spelling frame)) }
    // What is spelled so is read, unless memory runs out.
    ensures only { (frame : Signed Body) → FitsFields frame → IsTrue (has_spelling frame)
        → bytes.now ≡ frame_text frame → Answers result (Ok frame) }
    // Each refusal is the first fault, unless memory runs out.
    ensures fault { IfErr result (λ refusal. IsFault refusal (first_fault bytes.now)) }
    ensures none { IsOk result → first_fault bytes.now ≡ None }
{
    frame(alloc, bytes)
}
