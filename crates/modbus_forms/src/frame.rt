ghost use Rattle.std.specs.Prelude.{◌≡◌, ◌≤◌, ◌<◌, ◌^◌, ◌++◌, ◌+◌, Some, None, IsOk, IfOk, IfErr, IfSome, IfNone, length};
ghost use Rattle.modbus_forms.specs.Frame.{header_text, frame_text, frame_fault, protocol_of, size_of, pdu_of, is_size};

use crate::refusal::ModbusRefusal;
use wire_parts::Reader;

/// The fields of a header, and what follows it.
#[derive(Drop)]
struct Header<'a> {
    transaction: u16,
    protocol: u16,
    size: u16,
    unit: u8,
    rest: &'a [u8],
}

/// A message in a frame without a fault.
#[derive(Drop)]
pub struct Framed<'a> {
    pub transaction: u16,
    pub unit: u8,
    pub pdu: &'a [u8],
}

/// The header, of which there is none in fewer than 7 bytes.
fn read_header(bytes: &[u8]) -> Option<Header<'_>>
    ensures spelled { IfSome result (λ h. bytes.now ≡ header_text h.transaction h.protocol h.size h.unit ++ h.rest.now) }
    ensures wide { IfSome result (λ h. h.transaction < 2 ^ 16) }
    ensures protocol { IfSome result (λ h. protocol_of bytes.now ≡ h.protocol) }
    ensures size { IfSome result (λ h. size_of bytes.now ≡ h.size) }
    ensures rest { IfSome result (λ h. pdu_of bytes.now ≡ h.rest.now) }
    ensures long { IfSome result (λ h. length bytes.now ≡ 7 + length h.rest.now) }
    ensures short { IfNone result (length bytes.now < 7) }
{
    if bytes.len() < 7 {
        return None;
    }
    let (head, rest) = bytes.split_at(7);
    let mut reader = Reader::over(head);
    let Ok(transaction) = reader.u16() else {
        return None;
    };
    let Ok(protocol) = reader.u16() else {
        return None;
    };
    let Ok(size) = reader.u16() else {
        return None;
    };
    let Ok(unit) = reader.u8() else {
        return None;
    };
    Some(Header {
        transaction,
        protocol,
        size,
        unit,
        rest,
    })
}

/// Whether a unit and a PDU can have so many bytes.
fn is_message_size(size: u16) -> bool
    ensures { result ≡ is_size size }
{
    size >= 2 && size <= 254
}

/// The message in a frame, whatever its PDU.
pub fn read_framed(bytes: &[u8]) -> Result<Framed<'_>, ModbusRefusal>
    ensures spelled { IfOk result (λ f. bytes.now ≡ frame_text f.transaction f.unit f.pdu.now) }
    ensures wide { IfOk result (λ f. f.transaction < 2 ^ 16) }
    ensures some { IfOk result (λ f. 1 ≤ length f.pdu.now) }
    ensures few { IfOk result (λ f. length f.pdu.now ≤ 253) }
    ensures faultless { IfOk result (λ f. (frame_fault bytes.now ≡ None) × (pdu_of bytes.now ≡ f.pdu.now)) }
    ensures fault { IfErr result (λ e. frame_fault bytes.now ≡ Some e) }
{
    let Some(header) = read_header(bytes) else {
        return Err(ModbusRefusal::Short);
    };
    if header.protocol != 0 {
        return Err(ModbusRefusal::BadProtocol);
    }
    if !is_message_size(header.size) {
        return Err(ModbusRefusal::BadLength);
    }
    let size = 6 + usize::from(header.size);
    if bytes.len() < size {
        return Err(ModbusRefusal::Short);
    }
    if bytes.len() > size {
        return Err(ModbusRefusal::Trailing);
    }
    Ok(Framed {
        transaction: header.transaction,
        unit: header.unit,
        pdu: header.rest,
    })
}
