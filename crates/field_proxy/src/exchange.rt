//! One request and its reply, by Modbus bytes as with a real device.
ghost use Rattle.std.specs.Prelude.{◌≡◌, ◌⊎◌, ◌<◌, IsTrue, IfOk, OnOk, OnErr, Some, None, FitsSigned};
ghost use Rattle.std.specs.Int.{w128};
ghost use Rattle.modbus_forms.specs.Requests.{request_pdu_fits, request_fits, request_text};
ghost use Rattle.modbus_forms.specs.Replies.{reply_fits, reply_text};
ghost use Rattle.modbus_forms.specs.Widths.{FitsRequestPdu, FitsRequest, FitsReply};
ghost use Rattle.field_device.specs.Table.{reply_pdu, reply_to, after, exception_for};
ghost use Rattle.field_proxy.specs.Exchanges.{read_pdu, raw_in, exception_in, line_with};
ghost use Rattle.field_proxy.specs.Readings.{is_i64, in_64_bits, given};
ghost use Rattle.field_proxy.specs.Writes.{write_pdu, write_request};
ghost use Rattle.point_table.specs.Point.{scaled};

use crate::line::{Exchange, Line};
use byteorder::{BigEndian, ByteOrder};
use field_device::Device;
use modbus_forms::{
    ModbusRefusal, Reply, ReplyPdu, Request, RequestPdu, read_reply, read_request, write_reply,
    write_request,
};
use plain_lists::{Bytes, Want};
use point_table::{Area, Point};
use std::alloc::Global;

/// The unit behind the device's address.
const UNIT: u8 = 1;

/// The bytes of a request, and the request as the device reads it from them.
fn heard_request(alloc: Global, request: &Request) -> Result<(Bytes, Request), Want>
    requires fits { IsTrue (request_fits request.now) }
    requires wide { FitsRequest request.now }
    ensures bytes { IfOk result (λ heard. heard.0 ≡ request_text request.now) }
    ensures same { IfOk result (λ heard. heard.1 ≡ request.now) }
{
    let bytes = write_request(alloc, request)?;
    match read_request(alloc, &bytes) {
        Ok(heard) => Ok((Bytes::from_vec(alloc, bytes)?, heard)),
        Err(ModbusRefusal::Want) => Err(Want),
        Err(_) => unreachable!(),
    }
}

/// The bytes of a reply, and the reply as the proxy reads it from them.
fn heard_reply(alloc: Global, reply: &Reply) -> Result<(Bytes, Reply), Want>
    requires fits { IsTrue (reply_fits reply.now) }
    requires wide { FitsReply reply.now }
    ensures bytes { IfOk result (λ heard. heard.0 ≡ reply_text reply.now) }
    ensures same { IfOk result (λ heard. heard.1 ≡ reply.now) }
{
    let bytes = write_reply(alloc, reply)?;
    match read_reply(alloc, &bytes) {
        Ok(heard) => Ok((Bytes::from_vec(alloc, bytes)?, heard)),
        Err(ModbusRefusal::Want) => Err(Want),
        Err(_) => unreachable!(),
    }
}

/// Asks the device, and gives the reply with the bytes that passed. After want of memory the device may have carried the
/// request out, and its reply is lost.
fn exchange(
    alloc: Global,
    device: &mut Device,
    request: &Request,
) -> Result<(Exchange, Reply), Want>
    requires fits { IsTrue (request_fits request.now) }
    requires wide { FitsRequest request.now }
    ensures sent { IfOk result (λ made. made.0.request ≡ request_text request.now) }
    ensures heard { IfOk result (λ made. made.0.reply ≡ reply_text (reply_to device.old request.now)) }
    ensures reply { IfOk result (λ made. made.1 ≡ reply_to device.old request.now) }
    ensures after { OnOk result (device.new ≡ after device.old request.now.pdu) }
    ensures err { OnErr result ((device.new ≡ device.old) ⊎ (device.new ≡ after device.old request.now.pdu)) }
{
    let (request, heard) = heard_request(alloc, request)?;
    let answer = device.answer(&heard)?;
    let (reply, read) = heard_reply(alloc, &answer)?;
    Ok((Exchange { request, reply }, read))
}

fn read_pdu(area: Area, place: u16) -> RequestPdu
    ensures { result ≡ read_pdu area place }
{
    let quantity = 1;
    match area {
        Area::Coil => RequestPdu::ReadBits {
            function: 1,
            place,
            quantity,
        },
        Area::Discrete => RequestPdu::ReadBits {
            function: 2,
            place,
            quantity,
        },
        Area::Holding => RequestPdu::ReadRegisters {
            function: 3,
            place,
            quantity,
        },
        Area::Input => RequestPdu::ReadRegisters {
            function: 4,
            place,
            quantity,
        },
    }
}

fn write_pdu(area: Area, place: u16, raw: u16) -> RequestPdu
    ensures { result ≡ write_pdu area place raw }
{
    match area {
        Area::Coil => RequestPdu::WriteCoil {
            place,
            value: if raw == 0 { 0 } else { 0xff00 },
        },
        _ => RequestPdu::WriteRegister { place, value: raw },
    }
}

/// The first bit or register of a reply.
#[tactic(auto, unfolding(wire_parts::specs::Fields::u16_at))]
fn raw_in(reply: &ReplyPdu) -> Option<u16>
    ensures { result ≡ raw_in reply.now }
{
    match reply {
        ReplyPdu::Bits { bytes, .. } => match bytes.as_slice().first() {
            Some(byte) => Some(u16::from(*byte % 2)),
            None => None,
        },
        ReplyPdu::Registers { bytes, .. } => {
            if bytes.len() < 2 {
                None
            } else {
                Some(BigEndian::read_u16(bytes.as_slice()))
            }
        }
        _ => None,
    }
}

fn exception_in(reply: &ReplyPdu) -> Option<u8>
    ensures { result ≡ exception_in reply.now }
{
    match reply {
        ReplyPdu::Exception { code, .. } => Some(*code),
        _ => None,
    }
}

/// What a raw value of a point stands for.
fn scaled(point: &Point, raw: u16) -> i128
    ensures value { result ≡ scaled point.now raw }
    ensures fits { FitsSigned w128 result }
{
    i128::from(raw) * i128::from(point.scale) + i128::from(point.offset)
}

fn is_i64(value: i128) -> bool
    ensures { result ≡ is_i64 value }
{
    -9_223_372_036_854_775_808 <= value && value <= 9_223_372_036_854_775_807
}

/// A value, where 64 bits can hold it.
fn in_64_bits(value: i128) -> Option<i64>
    ensures { result ≡ in_64_bits value }
{
    if !is_i64(value) {
        return None;
    }
    Some(value as i64)
}

/// Asks the device on the line for a reply to a request, under the next transaction. After want of memory the line has nothing
/// more.
#[tactic(auto, unfolding(crate::specs::Exchanges::line_with))]
fn ask(
    alloc: Global,
    device: &mut Device,
    line: &mut Line,
    pdu: RequestPdu,
) -> Result<ReplyPdu, Want>
    requires fits { IsTrue (request_pdu_fits pdu) }
    requires wide { FitsRequestPdu pdu }
    ensures reply { IfOk result (λ reply. reply ≡ reply_pdu device.old pdu) }
    ensures after { OnOk result (device.new ≡ after device.old pdu) }
    ensures line { OnOk result (line.new ≡ line_with line.old device.old pdu) }
    ensures err { OnErr result ((device.new ≡ device.old) ⊎ (device.new ≡ after device.old pdu)) }
    ensures lost { OnErr result (line.new.passed ≡ line.old.passed) }
{
    let transaction = line.next();
    let request = Request {
        transaction,
        unit: UNIT,
        pdu,
    };
    let (passed, reply) = exchange(alloc, device, &request)?;
    line.passed.push(passed)?;
    Ok(reply.pdu)
}

/// The raw value of a point, as the device replies.
fn read_raw(
    alloc: Global,
    device: &mut Device,
    line: &mut Line,
    point: &Point,
) -> Result<Option<u16>, Want>
    ensures raw { IfOk result (λ raw. raw ≡ raw_in (reply_pdu device.old (read_pdu point.now.area point.now.place))) }
    ensures line { OnOk result (line.new ≡ line_with line.old device.old (read_pdu point.now.area point.now.place)) }
    ensures lost { OnErr result (line.new.passed ≡ line.old.passed) }
    ensures same { device.new ≡ device.old }
{
    let pdu = read_pdu(point.area, point.place);
    let reply = ask(alloc, device, line, pdu)?;
    Ok(raw_in(&reply))
}

/// Reads a point of the device.
pub fn read_point(
    alloc: Global,
    device: &mut Device,
    line: &mut Line,
    point: &Point,
) -> Result<Option<i64>, Want>
    ensures value { IfOk result (λ value. value ≡ given device.old point.now) }
    ensures line { OnOk result (line.new ≡ line_with line.old device.old (read_pdu point.now.area point.now.place)) }
    ensures lost { OnErr result (line.new.passed ≡ line.old.passed) }
    ensures same { device.new ≡ device.old }
{
    let raw = read_raw(alloc, device, line, point)?;
    match raw {
        Some(raw) => Ok(in_64_bits(scaled(point, raw))),
        None => Ok(None),
    }
}

/// Writes a point of the device, and gives the code of the exception, if any. After want of memory the device may have
/// written it.
pub fn write_point(
    alloc: Global,
    device: &mut Device,
    line: &mut Line,
    point: &Point,
    raw: u16,
) -> Result<Option<u8>, Want>
    ensures exception { IfOk result (λ code. code ≡ exception_for device.old (write_request point.now raw)) }
    ensures after { OnOk result (device.new ≡ after device.old (write_request point.now raw)) }
    ensures line { OnOk result (line.new ≡ line_with line.old device.old (write_request point.now raw)) }
    ensures err { OnErr result ((device.new ≡ device.old) ⊎ (device.new ≡ after device.old (write_request point.now raw))) }
    ensures lost { OnErr result (line.new.passed ≡ line.old.passed) }
{
    let pdu = write_pdu(point.area, point.place, raw);
    let reply = ask(alloc, device, line, pdu)?;
    Ok(exception_in(&reply))
}
