ghost use Rattle.std.specs.Prelude.{◌≡◌, ◌≤◌, ◌++◌, ◌∷◌, IsTrue, IfOk, OnOk, length};
ghost use Rattle.modbus_forms.specs.Frame.{frame_text};
ghost use Rattle.modbus_forms.specs.Requests.{pair_text, many_text, request_pdu_text, request_pdu_fits, request_text, request_fits};
ghost use Rattle.modbus_forms.specs.Replies.{reply_pdu_text, reply_pdu_fits, reply_text, reply_fits};

use crate::reply::{Reply, ReplyPdu};
use crate::request::{Request, RequestPdu};
use plain_lists::{Bytes, Want};
use std::alloc::Global;
use wire_parts::{put_bytes, put_u8, put_u16};

fn put_pair(out: &mut Vec<u8>, function: u8, first: u16, second: u16) -> Result<(), Want>
    ensures { OnOk result (out.new.items ≡ out.old.items ++ (function ∷ pair_text first second)) }
{
    put_u8(out, function)?;
    put_u16(out, first)?;
    put_u16(out, second)
}

/// The number of bytes, and these.
fn put_counted(out: &mut Vec<u8>, bytes: &Bytes) -> Result<(), Want>
    requires { length bytes.now ≤ 251 }
    ensures { OnOk result (out.new.items ≡ out.old.items ++ (length bytes.now ∷ bytes.now)) }
{
    put_u8(out, bytes.len() as u8)?;
    put_bytes(out, bytes.as_slice())
}

fn put_many(
    out: &mut Vec<u8>,
    function: u8,
    place: u16,
    quantity: u16,
    bytes: &Bytes,
) -> Result<(), Want>
    requires { length bytes.now ≤ 247 }
    ensures { OnOk result (out.new.items ≡ out.old.items ++ (function ∷ many_text place quantity bytes.now)) }
{
    put_pair(out, function, place, quantity)?;
    put_counted(out, bytes)
}

fn put_request_pdu(out: &mut Vec<u8>, pdu: &RequestPdu) -> Result<(), Want>
    requires { IsTrue (request_pdu_fits pdu.now) }
    ensures { OnOk result (out.new.items ≡ out.old.items ++ request_pdu_text pdu.now) }
{
    match pdu {
        RequestPdu::ReadBits {
            function,
            place,
            quantity,
        } => put_pair(out, *function, *place, *quantity),
        RequestPdu::ReadRegisters {
            function,
            place,
            quantity,
        } => put_pair(out, *function, *place, *quantity),
        RequestPdu::WriteCoil { place, value } => put_pair(out, 5, *place, *value),
        RequestPdu::WriteRegister { place, value } => put_pair(out, 6, *place, *value),
        RequestPdu::WriteCoils {
            place,
            quantity,
            bytes,
        } => put_many(out, 15, *place, *quantity, bytes),
        RequestPdu::WriteRegisters {
            place,
            quantity,
            bytes,
        } => put_many(out, 16, *place, *quantity, bytes),
        RequestPdu::Other { function, bytes } => {
            put_u8(out, *function)?;
            put_bytes(out, bytes.as_slice())
        }
    }
}

fn put_reply_pdu(out: &mut Vec<u8>, pdu: &ReplyPdu) -> Result<(), Want>
    requires { IsTrue (reply_pdu_fits pdu.now) }
    ensures { OnOk result (out.new.items ≡ out.old.items ++ reply_pdu_text pdu.now) }
{
    match pdu {
        ReplyPdu::Bits { function, bytes } => {
            put_u8(out, *function)?;
            put_counted(out, bytes)
        }
        ReplyPdu::Registers { function, bytes } => {
            put_u8(out, *function)?;
            put_counted(out, bytes)
        }
        ReplyPdu::Wrote {
            function,
            place,
            value,
        } => put_pair(out, *function, *place, *value),
        ReplyPdu::WroteMany {
            function,
            place,
            quantity,
        } => put_pair(out, *function, *place, *quantity),
        ReplyPdu::Exception { function, code } => {
            put_u8(out, *function)?;
            put_u8(out, *code)
        }
    }
}

/// A PDU behind its header.
#[tactic(auto, unfolding(crate::specs::Frame::frame_text))]
fn in_frame(alloc: Global, transaction: u16, unit: u8, pdu: &[u8]) -> Result<Vec<u8>, Want>
    requires { length pdu.now ≤ 253 }
    ensures { IfOk result (λ text. text.items ≡ frame_text transaction unit pdu.now) }
{
    let mut text = Vec::with_capacity(alloc, 7 + pdu.len())?;
    put_u16(&mut text, transaction)?;
    put_u16(&mut text, 0)?;
    put_u16(&mut text, 1 + pdu.len() as u16)?;
    put_u8(&mut text, unit)?;
    put_bytes(&mut text, pdu)?;
    Ok(text)
}

/// The one spelling of a request.
pub fn write_request(alloc: Global, request: &Request) -> Result<Vec<u8>, Want>
    requires { IsTrue (request_fits request.now) }
    ensures { IfOk result (λ text. text.items ≡ request_text request.now) }
{
    let mut pdu = Vec::new(alloc);
    put_request_pdu(&mut pdu, &request.pdu)?;
    in_frame(alloc, request.transaction, request.unit, &pdu)
}

/// The one spelling of a reply.
pub fn write_reply(alloc: Global, reply: &Reply) -> Result<Vec<u8>, Want>
    requires { IsTrue (reply_fits reply.now) }
    ensures { IfOk result (λ text. text.items ≡ reply_text reply.now) }
{
    let mut pdu = Vec::new(alloc);
    put_reply_pdu(&mut pdu, &reply.pdu)?;
    in_frame(alloc, reply.transaction, reply.unit, &pdu)
}
