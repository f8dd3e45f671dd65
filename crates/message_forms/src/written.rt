ghost use Rattle.std.specs.Prelude.{◌≡◌, ◌++◌, ◌<◌, ◌≤◌, ◌^◌, ◌+◌, ◌-◌, ℕ, List, Bool, length, take, drop, IsTrue, OnOk};
ghost use Rattle.std.specs.List.{list_all};
ghost use Rattle.message_types.specs.Texts.{update_text, request_text, ack_text, summary_text, prepare_text, commit_text, mark_text, report_text, list_text, signed_text, certificate_text, rows_text, op_text, order_text, notice_number};
ghost use Rattle.message_types.specs.Spelling.{always_fits, request_fits, summary_fits, report_fits, frames_fit, signature_fits, row_fits, rows_fit, certificate_fits};
ghost use Rattle.wire_parts.specs.Fields.{u8_bytes, u16_bytes, u32_bytes, u64_bytes, i64_bytes};

use message_types::{
    Certificate, Commit, Mark, NoticeKind, Op, Order, PoAck, PoRequest, PoSummary, Prepare, Report,
    Rows, Signed, Update,
};
use plain_lists::{Items, Vector, Want};
use wire_parts::{put_bytes, put_i64, put_u8, put_u16, put_u32, put_u64};

/// A body of one kind, or of any: a frame's body is one.
pub trait Written: Drop {
    ghost text: { Self → List ℕ };

    ghost fits: { Self → Bool };

    /// Appends the body's text.
    fn put(&self, out: &mut Vec<u8>) -> Result<(), Want>
        requires { IsTrue (fits self.now) }
        ensures { OnOk result (out.new.items ≡ out.old.items ++ text self.now) };
}

// Writes a number into the 4 bytes at `at`.
#[tactic(auto, unfolding(wire_parts::specs::Fields::u32_bytes))]
fn write_u32(text: &mut [u8], at: usize, value: u32)
    requires { at + 4 ≤ length text.old }
    ensures { text.new ≡ take at text.old ++ u32_bytes value ++ drop (at + 4) text.old }
{
    text[at..at + 4].copy_from_slice(&value.to_be_bytes());
}

// Writes the length of what stands behind the 4 bytes at `at` into them. A body that is spelled is far below 4 GiB;
// what isn't has no room anywhere.
fn set_length(out: &mut Vec<u8>, at: usize) -> Result<(), Want>
    requires { at + 4 ≤ length out.old.items }
    ensures { OnOk result (out.new.items
        ≡ take at out.old.items ++ u32_bytes (length out.old.items - (at + 4)) ++ drop (at + 4) out.old.items) }
{
    let size = u32::try_from(out.len() - (at + 4)).map_err(|_| Want)?;
    write_u32(out.as_mut_slice(), at, size);
    Ok(())
}

// Appends the length of a body's text, and the text.
fn put_body<B: Written>(out: &mut Vec<u8>, body: &B) -> Result<(), Want>
    requires { IsTrue (B.fits body.now) }
    ensures { OnOk result (out.new.items ≡ out.old.items ++ (u32_bytes (length (B.text body.now)) ++ B.text body.now)) }
{
    let at = out.len();
    put_u32(out, 0)?;
    body.put(out)?;
    set_length(out, at)?;
    Ok(())
}

/// Appends the one spelling of a frame.
pub fn put_signed<B: Written>(out: &mut Vec<u8>, frame: &Signed<B>) -> Result<(), Want>
    requires body { IsTrue (B.fits frame.now.body) }
    requires signature { IsTrue (signature_fits frame.now) }
    ensures { OnOk result (out.new.items ≡ out.old.items ++ signed_text B.text frame.now) }
{
    put_u32(out, frame.signer)?;
    put_body(out, &frame.body)?;
    put_u32(out, frame.sig.len() as u32)?;
    put_bytes(out, frame.sig.as_slice())
}

pub fn put_frames<B: Written>(out: &mut Vec<u8>, frames: &Items<Signed<B>>) -> Result<(), Want>
    requires { IsTrue (frames_fit B.fits frames.now) }
    ensures { OnOk result (out.new.items ≡ out.old.items ++ list_text (signed_text B.text) frames.now) }
{
    put_u16(out, frames.len() as u16)?;
    for frame in frames.as_slice() {
        put_signed(out, frame)?;
    }
    Ok(())
}

pub fn put_row(out: &mut Vec<u8>, row: &Vector) -> Result<(), Want>
    requires { IsTrue (row_fits row.now) }
    ensures { OnOk result (out.new.items ≡ out.old.items ++ list_text u64_bytes row.now) }
{
    put_u16(out, row.len() as u16)?;
    for number in row.as_slice() {
        put_u64(out, *number)?;
    }
    Ok(())
}

pub fn put_rows(out: &mut Vec<u8>, rows: &Rows) -> Result<(), Want>
    requires { IsTrue (rows_fit rows.now) }
    ensures { OnOk result (out.new.items ≡ out.old.items ++ rows_text rows.now) }
{
    put_u16(out, 0x00f0)?;
    put_u16(out, rows.len() as u16)?;
    for row in rows.as_slice() {
        put_row(out, row)?;
    }
    Ok(())
}

fn put_certificate(out: &mut Vec<u8>, certificate: &Certificate) -> Result<(), Want>
    requires { IsTrue (certificate_fits certificate.now) }
    ensures { OnOk result (out.new.items ≡ out.old.items ++ certificate_text certificate.now) }
{
    put_u64(out, certificate.s)?;
    put_u64(out, certificate.v)?;
    put_rows(out, &certificate.rows)?;
    put_frames(out, &certificate.prepares)
}

pub fn put_certificates(out: &mut Vec<u8>, certificates: &Items<Certificate>) -> Result<(), Want>
    requires few { length certificates.now ≤ 16 }
    requires each { IsTrue (list_all certificate_fits certificates.now) }
    ensures { OnOk result (out.new.items ≡ out.old.items ++ list_text certificate_text certificates.now) }
{
    put_u16(out, certificates.len() as u16)?;
    for certificate in certificates.as_slice() {
        put_certificate(out, certificate)?;
    }
    Ok(())
}

pub fn put_op(out: &mut Vec<u8>, op: Op) -> Result<(), Want>
    ensures { OnOk result (out.new.items ≡ out.old.items ++ op_text op) }
{
    match op {
        Op::Reading { point, value } => put_point(out, 1, point, value),
        Op::Set { point, value } => put_point(out, 2, point, value),
        Op::Ack { alarm } => {
            put_u8(out, 3)?;
            put_u32(out, alarm)
        }
    }
}

fn put_point(out: &mut Vec<u8>, kind: u8, point: u32, value: i64) -> Result<(), Want>
    ensures { OnOk result (out.new.items ≡ out.old.items ++ (u8_bytes kind ++ u32_bytes point ++ i64_bytes value)) }
{
    put_u8(out, kind)?;
    put_u32(out, point)?;
    put_i64(out, value)
}

fn number_of(notice: NoticeKind) -> u8
    ensures { result ≡ notice_number notice }
{
    match notice {
        NoticeKind::Done => 1,
        NoticeKind::Denied => 2,
        NoticeKind::NoPoint => 3,
        NoticeKind::OutOfRange => 4,
        NoticeKind::NotWritable => 5,
        NoticeKind::NoAlarm => 6,
        NoticeKind::Raised => 7,
        NoticeKind::Cleared => 8,
        NoticeKind::WrongPart => 9,
    }
}

pub fn put_order(out: &mut Vec<u8>, order: Order) -> Result<(), Want>
    ensures { OnOk result (out.new.items ≡ out.old.items ++ order_text order) }
{
    match order {
        Order::Write { point, raw } => {
            put_u8(out, 1)?;
            put_u32(out, point)?;
            put_u16(out, raw)
        }
        Order::Notice(notice) => {
            put_u8(out, 2)?;
            put_u8(out, number_of(notice.what))?;
            put_u64(out, notice.t)?;
            put_u32(out, notice.number)
        }
    }
}
