ghost use Rattle.std.specs.Prelude.{◌≡◌, ◌++◌, IsTrue, OnOk, IfOk};
ghost use Rattle.message_types.specs.Texts.{body_text, frame_text};
ghost use Rattle.message_types.specs.Spelling.{body_fits, has_spelling};
ghost use Rattle.wire_parts.specs.Fields.{u16_bytes, u32_bytes, u64_bytes};

use crate::written::{
    Written, put_certificates, put_frames, put_order, put_row, put_rows, put_signed,
};
use message_types::{Body, Frame, Give, GiveOrdered, NewView, PrePrepare, Rtt, Voucher};
use plain_lists::Want;
use std::alloc::Global;
use wire_parts::{put_u16, put_u32, put_u64};

fn put_pre_prepare(out: &mut Vec<u8>, word: &PrePrepare) -> Result<(), Want>
    requires { IsTrue (body_fits (Body.PrePrepare word.now)) }
    ensures { OnOk result (out.new.items ≡ out.old.items ++ body_text (Body.PrePrepare word.now)) }
{
    put_u16(out, 5)?;
    put_u64(out, word.v)?;
    put_u64(out, word.s)?;
    put_frames(out, &word.frames)
}

fn put_new_view(out: &mut Vec<u8>, word: &NewView) -> Result<(), Want>
    requires { IsTrue (body_fits (Body.NewView word.now)) }
    ensures { OnOk result (out.new.items ≡ out.old.items ++ body_text (Body.NewView word.now)) }
{
    put_u16(out, 15)?;
    put_u64(out, word.v)?;
    put_frames(out, &word.reports)
}

fn put_give(out: &mut Vec<u8>, word: &Give) -> Result<(), Want>
    requires { IsTrue (body_fits (Body.Give word.now)) }
    ensures { OnOk result (out.new.items ≡ out.old.items ++ body_text (Body.Give word.now)) }
{
    put_u16(out, 17)?;
    put_signed(out, &word.request)?;
    put_frames(out, &word.acks)
}

fn put_give_ordered(out: &mut Vec<u8>, word: &GiveOrdered) -> Result<(), Want>
    requires { IsTrue (body_fits (Body.GiveOrdered word.now)) }
    ensures { OnOk result (out.new.items ≡ out.old.items ++ body_text (Body.GiveOrdered word.now)) }
{
    put_u16(out, 19)?;
    put_u64(out, word.s)?;
    put_u64(out, word.v)?;
    put_rows(out, &word.rows)?;
    put_frames(out, &word.commits)
}

fn put_voucher(out: &mut Vec<u8>, word: &Voucher) -> Result<(), Want>
    ensures { OnOk result (out.new.items ≡ out.old.items ++ body_text (Body.Voucher word.now)) }
{
    put_u16(out, 20)?;
    put_u32(out, word.client)?;
    put_u64(out, word.number)?;
    put_order(out, word.order)
}

// The number of a kind and a field of 64 bits.
fn put_number(out: &mut Vec<u8>, kind: u16, number: u64) -> Result<(), Want>
    ensures { OnOk result (out.new.items ≡ out.old.items ++ (u16_bytes kind ++ u64_bytes number)) }
{
    put_u16(out, kind)?;
    put_u64(out, number)
}

// The number of a kind, a master and a field of 64 bits.
fn put_named(out: &mut Vec<u8>, kind: u16, master: u32, number: u64) -> Result<(), Want>
    ensures { OnOk result (out.new.items ≡ out.old.items ++ (u16_bytes kind ++ u32_bytes master ++ u64_bytes number)) }
{
    put_u16(out, kind)?;
    put_u32(out, master)?;
    put_u64(out, number)
}

// The number of a kind and two fields of 64 bits.
fn put_pair(out: &mut Vec<u8>, kind: u16, first: u64, second: u64) -> Result<(), Want>
    ensures { OnOk result (out.new.items ≡ out.old.items ++ (u16_bytes kind ++ u64_bytes first ++ u64_bytes second)) }
{
    put_u16(out, kind)?;
    put_u64(out, first)?;
    put_u64(out, second)
}

fn put_rtt(out: &mut Vec<u8>, word: &Rtt) -> Result<(), Want>
    ensures { OnOk result (out.new.items ≡ out.old.items ++ body_text (Body.Rtt word.now)) }
{
    put_named(out, 10, word.to, word.number)?;
    put_u64(out, word.ticks)
}

impl Written for Body {
    ghost text = { body_text };

    ghost fits = { body_fits };

    fn put(&self, out: &mut Vec<u8>) -> Result<(), Want> {
        match self {
            Body::Update(word) => word.put(out),
            Body::PoRequest(word) => word.put(out),
            Body::PoAck(word) => word.put(out),
            Body::PoSummary(word) => word.put(out),
            Body::PrePrepare(word) => put_pre_prepare(out, word),
            Body::Prepare(word) => word.put(out),
            Body::Commit(word) => word.put(out),
            Body::Ping(word) => put_number(out, 8, word.number),
            Body::Pong(word) => put_named(out, 9, word.to, word.number),
            Body::Rtt(word) => put_rtt(out, word),
            Body::TatReport(word) => put_pair(out, 11, word.v, word.ticks),
            Body::TatBound(word) => put_pair(out, 12, word.v, word.ticks),
            Body::Suspect(word) => put_number(out, 13, word.v),
            Body::Report(word) => word.put(out),
            Body::NewView(word) => put_new_view(out, word),
            Body::AskUpdate(word) => put_named(out, 16, word.j, word.k),
            Body::Give(word) => put_give(out, word),
            Body::AskOrder(word) => put_number(out, 18, word.s),
            Body::GiveOrdered(word) => put_give_ordered(out, word),
            Body::Voucher(word) => put_voucher(out, word),
            Body::Mark(word) => word.put(out),
        }
    }
}

/// The text of a body of one kind, or of any.
pub fn word_text<B: Written>(alloc: Global, word: &B) -> Result<Vec<u8>, Want>
    requires { IsTrue (B.fits word.now) }
    ensures { IfOk result (λ text. text.items ≡ B.text word.now) }
{
    let mut text = Vec::new(alloc);
    word.put(&mut text)?;
    Ok(text)
}

/// The text of a body, which is what its signer signs.
pub fn text_of(alloc: Global, body: &Body) -> Result<Vec<u8>, Want>
    requires { IsTrue (body_fits body.now) }
    ensures { IfOk result (λ text. text.items ≡ body_text body.now) }
{
    word_text(alloc, body)
}

/// The one spelling of a frame.
#[tactic(auto, unfolding(message_types::specs::Spelling::has_spelling))]
pub fn write_frame(alloc: Global, frame: &Frame) -> Result<Vec<u8>, Want>
    requires { IsTrue (has_spelling frame.now) }
    ensures { IfOk result (λ text. text.items ≡ frame_text frame.now) }
{
    let mut text = Vec::new(alloc);
    put_signed(&mut text, frame)?;
    Ok(text)
}
