ghost use Rattle.std.specs.Prelude.{◌≡◌, ◌≤◌, ◌≢◌, ◌+◌, ◌∷◌, ◌++◌, [], true, IsTrue, IsOk, IfOk, IfErr, None, length, slice_index, drop};
ghost use Rattle.wire_parts.specs.Fields.{u16_at};
ghost use Rattle.modbus_forms.specs.declared.request.Request.{Request};
ghost use Rattle.modbus_forms.specs.declared.reply.Reply.{Reply};
ghost use Rattle.modbus_forms.specs.Requests.{pair_text, many_text, request_pdu_text, request_pdu_fits, request_text, request_fits, is_request_sized, request_fault};
ghost use Rattle.modbus_forms.specs.Replies.{reply_pdu_text, reply_pdu_fits, reply_text, reply_fits, is_reply_sized, reply_fault};
ghost use Rattle.modbus_forms.specs.Widths.{FitsPair, FitsRequestPdu, FitsReplyPdu, FitsRequest, FitsReply};
ghost use Rattle.modbus_forms.specs.Answered.{IsFault, Reads, IsBadSize};

use crate::frame::read_framed;
use crate::refusal::ModbusRefusal;
use crate::reply::{Reply, ReplyPdu};
use crate::request::{Request, RequestPdu};
use plain_lists::Bytes;
use std::alloc::Global;
use wire_parts::Reader;

/// Two numbers, as a place and a quantity.
#[derive(Drop)]
struct Pair {
    first: u16,
    second: u16,
}

/// Where to write how many places, and what.
#[derive(Drop)]
struct Many<'a> {
    place: u16,
    quantity: u16,
    bytes: &'a [u8],
}

fn read_pair(rest: &[u8]) -> Result<Pair, ModbusRefusal>
    ensures spelled { IfOk result (λ p. rest.now ≡ pair_text p.first p.second) }
    ensures first { IfOk result (λ p. u16_at rest.now ≡ p.first) }
    ensures second { IfOk result (λ p. u16_at (drop 2 rest.now) ≡ p.second) }
    ensures wide { IfOk result (λ p. FitsPair p.first p.second) }
    ensures size { IfOk result (λ p. length rest.now ≡ 4) }
    ensures fault { IfErr result (λ e. (e ≡ ModbusRefusal.BadLength) × (length rest.now ≢ 4)) }
{
    if rest.len() != 4 {
        return Err(ModbusRefusal::BadLength);
    }
    let mut reader = Reader::over(rest);
    let Ok(first) = reader.u16() else {
        return Err(ModbusRefusal::BadLength);
    };
    let Ok(second) = reader.u16() else {
        return Err(ModbusRefusal::BadLength);
    };
    Ok(Pair { first, second })
}

fn read_many(rest: &[u8]) -> Result<Many<'_>, ModbusRefusal>
    ensures spelled { IfOk result (λ m. rest.now ≡ many_text m.place m.quantity m.bytes.now) }
    ensures place { IfOk result (λ m. u16_at rest.now ≡ m.place) }
    ensures quantity { IfOk result (λ m. u16_at (drop 2 rest.now) ≡ m.quantity) }
    ensures bytes { IfOk result (λ m. drop 5 rest.now ≡ m.bytes.now) }
    ensures size { IfOk result (λ m. length rest.now ≡ 5 + slice_index rest.now 4) }
    ensures fault { IfErr result (λ e. (e ≡ ModbusRefusal.BadLength) × (length rest.now ≢ 5 + slice_index rest.now 4)) }
{
    if rest.len() < 5 {
        return Err(ModbusRefusal::BadLength);
    }
    if rest.len() != 5 + usize::from(rest[4]) {
        return Err(ModbusRefusal::BadLength);
    }
    let (front, bytes) = rest.split_at(5);
    let Pair { first, second } = read_pair(&front[..4])?;
    Ok(Many {
        place: first,
        quantity: second,
        bytes,
    })
}

/// The request that a PDU spells.
fn request_pdu(alloc: Global, pdu: &[u8]) -> Result<RequestPdu, ModbusRefusal>
    requires some { 1 ≤ length pdu.now }
    requires few { length pdu.now ≤ 253 }
    ensures spelled { IfOk result (λ p. pdu.now ≡ request_pdu_text p) }
    ensures fits { IfOk result (λ p. IsTrue (request_pdu_fits p)) }
    ensures wide { IfOk result FitsRequestPdu }
    ensures sized { IsOk result → is_request_sized pdu.now ≡ true }
    ensures fault { IfErr result (λ e. IsBadSize e (is_request_sized pdu.now)) }
{
    let function = pdu[0];
    let rest = &pdu[1..];
    match function {
        1 | 2 => {
            let p = read_pair(rest)?;
            Ok(RequestPdu::ReadBits {
                function,
                place: p.first,
                quantity: p.second,
            })
        }
        3 | 4 => {
            let p = read_pair(rest)?;
            Ok(RequestPdu::ReadRegisters {
                function,
                place: p.first,
                quantity: p.second,
            })
        }
        5 => {
            let p = read_pair(rest)?;
            Ok(RequestPdu::WriteCoil {
                place: p.first,
                value: p.second,
            })
        }
        6 => {
            let p = read_pair(rest)?;
            Ok(RequestPdu::WriteRegister {
                place: p.first,
                value: p.second,
            })
        }
        15 => {
            let m = read_many(rest)?;
            Ok(RequestPdu::WriteCoils {
                place: m.place,
                quantity: m.quantity,
                bytes: Bytes::from_slice(alloc, m.bytes)?,
            })
        }
        16 => {
            let m = read_many(rest)?;
            Ok(RequestPdu::WriteRegisters {
                place: m.place,
                quantity: m.quantity,
                bytes: Bytes::from_slice(alloc, m.bytes)?,
            })
        }
        _ => Ok(RequestPdu::Other {
            function,
            bytes: Bytes::from_slice(alloc, rest)?,
        }),
    }
}

fn request_from(alloc: Global, bytes: &[u8]) -> Result<Request, ModbusRefusal>
    ensures found { IfOk result (λ request. bytes.now ≡ request_text request) }
    ensures spelled { IfOk result (λ request. IsTrue (request_fits request)) }
    ensures wide { IfOk result FitsRequest }
    ensures fault { IfErr result (λ refusal. IsFault refusal (request_fault bytes.now)) }
    ensures none { IsOk result → request_fault bytes.now ≡ None }
{
    let framed = read_framed(bytes)?;
    let pdu = request_pdu(alloc, framed.pdu)?;
    Ok(Request {
        transaction: framed.transaction,
        unit: framed.unit,
        pdu,
    })
}

/// The request that the bytes spell, all of them. Else the first fault.
pub fn read_request(alloc: Global, bytes: &[u8]) -> Result<Request, ModbusRefusal>
    // What is read is spelled so.
    ensures found { IfOk result (λ request. bytes.now ≡ request_text request) }
    ensures spelled { IfOk result (λ request. IsTrue (request_fits request)) }
    // What is spelled so is read, unless memory runs out.
    ensures only { (request : Request) → FitsRequest request → IsTrue (request_fits request)
        → bytes.now ≡ request_text request → Reads result request }
    // Each refusal is the first fault, unless memory runs out.
    ensures fault { IfErr result (λ refusal. IsFault refusal (request_fault bytes.now)) }
    ensures none { IsOk result → request_fault bytes.now ≡ None }
{
    request_from(alloc, bytes)
}

/// The one byte behind the function of an exception.
fn code(rest: &[u8]) -> Result<u8, ModbusRefusal>
    ensures spelled { IfOk result (λ code. rest.now ≡ code ∷ []) }
    ensures fault { IfErr result (λ e. (e ≡ ModbusRefusal.BadLength) × (length rest.now ≢ 1)) }
{
    if rest.len() != 1 {
        return Err(ModbusRefusal::BadLength);
    }
    Ok(rest[0])
}

/// The bytes behind their number.
fn counted(rest: &[u8]) -> Result<&[u8], ModbusRefusal>
    ensures spelled { IfOk result (λ bytes. rest.now ≡ length bytes.now ∷ bytes.now) }
    ensures bytes { IfOk result (λ bytes. drop 1 rest.now ≡ bytes.now) }
    ensures size { IfOk result (λ bytes. length rest.now ≡ 1 + slice_index rest.now 0) }
    ensures fault { IfErr result (λ e. (e ≡ ModbusRefusal.BadLength) × (length rest.now ≢ 1 + slice_index rest.now 0)) }
{
    if rest.is_empty() {
        return Err(ModbusRefusal::BadLength);
    }
    if rest.len() != 1 + usize::from(rest[0]) {
        return Err(ModbusRefusal::BadLength);
    }
    Ok(&rest[1..])
}

/// The reply that a PDU spells.
fn reply_pdu(alloc: Global, pdu: &[u8]) -> Result<ReplyPdu, ModbusRefusal>
    requires some { 1 ≤ length pdu.now }
    requires few { length pdu.now ≤ 253 }
    ensures spelled { IfOk result (λ p. pdu.now ≡ reply_pdu_text p) }
    ensures fits { IfOk result (λ p. IsTrue (reply_pdu_fits p)) }
    ensures wide { IfOk result FitsReplyPdu }
    ensures sized { IsOk result → is_reply_sized pdu.now ≡ true }
    ensures fault { IfErr result (λ e. IsBadSize e (is_reply_sized pdu.now)) }
{
    let function = pdu[0];
    let rest = &pdu[1..];
    match function {
        1 | 2 => {
            let bytes = Bytes::from_slice(alloc, counted(rest)?)?;
            Ok(ReplyPdu::Bits { function, bytes })
        }
        3 | 4 => {
            let bytes = Bytes::from_slice(alloc, counted(rest)?)?;
            Ok(ReplyPdu::Registers { function, bytes })
        }
        5 | 6 => {
            let p = read_pair(rest)?;
            Ok(ReplyPdu::Wrote {
                function,
                place: p.first,
                value: p.second,
            })
        }
        15 | 16 => {
            let p = read_pair(rest)?;
            Ok(ReplyPdu::WroteMany {
                function,
                place: p.first,
                quantity: p.second,
            })
        }
        128..=255 => {
            let code = code(rest)?;
            Ok(ReplyPdu::Exception { function, code })
        }
        _ => Err(ModbusRefusal::BadLength),
    }
}

fn reply_from(alloc: Global, bytes: &[u8]) -> Result<Reply, ModbusRefusal>
    ensures found { IfOk result (λ reply. bytes.now ≡ reply_text reply) }
    ensures spelled { IfOk result (λ reply. IsTrue (reply_fits reply)) }
    ensures wide { IfOk result FitsReply }
    ensures fault { IfErr result (λ refusal. IsFault refusal (reply_fault bytes.now)) }
    ensures none { IsOk result → reply_fault bytes.now ≡ None }
{
    let framed = read_framed(bytes)?;
    let pdu = reply_pdu(alloc, framed.pdu)?;
    Ok(Reply {
        transaction: framed.transaction,
        unit: framed.unit,
        pdu,
    })
}

/// The reply that the bytes spell, all of them. Else the first fault.
pub fn read_reply(alloc: Global, bytes: &[u8]) -> Result<Reply, ModbusRefusal>
    // What is read is spelled so.
    ensures found { IfOk result (λ reply. bytes.now ≡ reply_text reply) }
    ensures spelled { IfOk result (λ reply. IsTrue (reply_fits reply)) }
    // What is spelled so is read, unless memory runs out.
    ensures only { (reply : Reply) → FitsReply reply → IsTrue (reply_fits reply)
        → bytes.now ≡ reply_text reply → Reads result reply }
    // Each refusal is the first fault, unless memory runs out.
    ensures fault { IfErr result (λ refusal. IsFault refusal (reply_fault bytes.now)) }
    ensures none { IsOk result → reply_fault bytes.now ≡ None }
{
    reply_from(alloc, bytes)
}
