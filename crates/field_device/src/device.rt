ghost use Rattle.std.specs.Prelude.{◌≡◌, ◌↔◌, ◌≤◌, ◌<◌, ◌*◌, ◌+◌, ◌&&◌, ◌||◌, nat_eq, nat_le, Bool, IsTrue, IsOk, IfOk, OnOk, OnErr, IsErr, None, take, drop, length, true, false, replicate, slice_set};
ghost use Rattle.modbus_forms.specs.Requests.{request_pdu_fits, request_fits};
ghost use Rattle.modbus_forms.specs.Replies.{reply_pdu_fits, reply_fits};
ghost use Rattle.modbus_forms.specs.Widths.{FitsReplyPdu, FitsReply};
ghost use Rattle.field_device.specs.Places.{zeros, value_at, size_of, changed, bit_number};
ghost use Rattle.field_device.specs.Packing.{packed, register_bytes};
ghost use Rattle.field_device.specs.Table.{refused, exception, is_between, is_coil_value, exception_for, function_of, plain_reply, written, reply_pdu, reply_to, after, is_read, bits_of, registers_of};

use crate::bits::{pack, write_bits};
use crate::limits::{
    MOST_BITS_READ, MOST_COILS_WRITTEN, MOST_REGISTERS_READ, MOST_REGISTERS_WRITTEN,
};
use crate::registers::{spell, write_registers};
use modbus_forms::{Reply, ReplyPdu, Request, RequestPdu};
use plain_lists::{Bytes, Want};
use point_table::{Area, DeviceSizes};
use std::alloc::Global;
use std::marker::Model;
use thiserror::Error;

/// The area has no such place.
#[derive(Clone, Copy, Debug, PartialEq, Eq, Error)]
#[error("there is no such place")]
pub struct NoPlace;

/// A field device: bits and registers, which the field changes and Modbus requests read and write.
pub struct Device {
    alloc: Global,
    coils: Vec<bool, Global>,
    discrete: Vec<bool, Global>,
    holding: Vec<u16, Global>,
    input: Vec<u16, Global>,
}

// Taken apart here once, so that no crate above proves it again.
impl Drop for Device {
    fn drop(self) {
        let Device {
            alloc: _,
            coils: _,
            discrete: _,
            holding: _,
            input: _,
        } = self;
    }
}

impl Model for Device {
    ghost use Rattle.field_device.specs.Places.{Places};

    ghost Value = { Places };

    ghost view = { λ device. record { coils = device.coils.items; discrete = device.discrete.items; holding = device.holding.items; input = device.input.items } };
}

// The codes of exceptions (V1.1b3, section 7).
const ILLEGAL_FUNCTION: u8 = 1;

const ILLEGAL_PLACE: u8 = 2;

const ILLEGAL_VALUE: u8 = 3;

// A coil's two values in a request.
const COIL_ON: u16 = 0xff00;

const COIL_OFF: u16 = 0;

impl Device {
    ghost use Rattle.field_device.specs.Places.{Places};

    /// A device of these sizes that holds zeros.
    pub fn make(alloc: Global, sizes: &DeviceSizes) -> Result<Device, Want>
        ensures { IfOk result (λ device. device ≡ zeros sizes.now) }
    {
        Ok(Device {
            alloc,
            coils: vec![in alloc; false; sizes.coils as usize]?,
            discrete: vec![in alloc; false; sizes.discrete as usize]?,
            holding: vec![in alloc; 0u16; sizes.holding as usize]?,
            input: vec![in alloc; 0u16; sizes.input as usize]?,
        })
    }

    /// The value at a place, 0 or 1 of a bit. None exactly where the area has no such place.
    pub fn value(&self, area: Area, place: u16) -> Option<u16>
        ensures { result ≡ value_at self.now area place }
    {
        let place = place as usize;
        match area {
            Area::Coil => Some(u16::from(*self.coils.get(place)?)),
            Area::Discrete => Some(u16::from(*self.discrete.get(place)?)),
            Area::Holding => self.holding.get(place).copied(),
            Area::Input => self.input.get(place).copied(),
        }
    }

    /// A change in the field. A bit is set by any value but 0.
    pub fn change(&mut self, area: Area, place: u16, value: u16) -> Result<(), NoPlace>
        ensures ok { OnOk result (self.new ≡ changed self.old area place value) }
        ensures err { OnErr result (self.new ≡ self.old) }
        ensures no_place { IsErr result ↔ (size_of self.old area ≤ place) }
    {
        let place = place as usize;
        match area {
            Area::Coil => write_at(&mut self.coils, place, value != 0),
            Area::Discrete => write_at(&mut self.discrete, place, value != 0),
            Area::Holding => write_at(&mut self.holding, place, value),
            Area::Input => write_at(&mut self.input, place, value),
        }
    }

    /// The answer to a request, which the device carries out unless it answers with an exception.
    pub fn answer(&mut self, request: &Request) -> Result<Reply, Want>
        requires { IsTrue (request_fits request.now) }
        ensures reply { IfOk result (λ reply. reply ≡ reply_to self.old request.now) }
        ensures after { OnOk result (self.new ≡ after self.old request.now.pdu) }
        // Only reads want memory, and after want of it nothing has changed.
        ensures memory { is_read request.now.pdu ≡ false → IsOk result }
        ensures err { OnErr result (self.new ≡ self.old) }
        // The reply has a spelling.
        ensures fits { IfOk result (λ reply. IsTrue (reply_fits reply)) }
        ensures wide { IfOk result FitsReply }
    {
        let (transaction, unit) = (request.transaction, request.unit);
        let pdu = self.answer_pdu(&request.pdu)?;
        Ok(Reply {
            transaction,
            unit,
            pdu,
        })
    }
}

impl Device {
    fn answer_pdu(&mut self, pdu: &RequestPdu) -> Result<ReplyPdu, Want>
        requires { IsTrue (request_pdu_fits pdu.now) }
        ensures reply { IfOk result (λ reply. reply ≡ reply_pdu self.old pdu.now) }
        ensures after { OnOk result (self.new ≡ after self.old pdu.now) }
        ensures memory { is_read pdu.now ≡ false → IsOk result }
        ensures err { OnErr result (self.new ≡ self.old) }
        ensures fits { IfOk result (λ reply. IsTrue (reply_pdu_fits reply)) }
        ensures wide { IfOk result FitsReplyPdu }
    {
        match self.exception_for(pdu) {
            Some(code) => Ok(exception(function_of(pdu), code)),
            None => self.carry_out(pdu),
        }
    }

    /// The code of the exception that a request meets.
    #[tactic(auto, unfolding(crate::specs::Table::exception_for))]
    fn exception_for(&self, pdu: &RequestPdu) -> Option<u8>
        ensures { result ≡ exception_for self.now pdu.now }
    {
        match pdu {
            RequestPdu::ReadBits {
                function,
                place,
                quantity,
            } => refusal(
                is_between(1, MOST_BITS_READ, *quantity),
                reaches(*place, *quantity, self.bits_of(*function).len()),
            ),
            RequestPdu::ReadRegisters {
                function,
                place,
                quantity,
            } => refusal(
                is_between(1, MOST_REGISTERS_READ, *quantity),
                reaches(*place, *quantity, self.registers_of(*function).len()),
            ),
            RequestPdu::WriteCoil { place, value } => refusal(
                is_coil_value(*value),
                (*place as usize) < self.coils.len(),
            ),
            RequestPdu::WriteRegister { place, .. } => {
                refusal(true, (*place as usize) < self.holding.len())
            }
            RequestPdu::WriteCoils {
                place,
                quantity,
                bytes,
            } => refusal(
                are_counted(
                    MOST_COILS_WRITTEN,
                    *quantity,
                    bytes.len(),
                    (*quantity as usize + 7) / 8,
                ),
                reaches(*place, *quantity, self.coils.len()),
            ),
            RequestPdu::WriteRegisters {
                place,
                quantity,
                bytes,
            } => refusal(
                are_counted(
                    MOST_REGISTERS_WRITTEN,
                    *quantity,
                    bytes.len(),
                    2 * *quantity as usize,
                ),
                reaches(*place, *quantity, self.holding.len()),
            ),
            RequestPdu::Other { .. } => Some(ILLEGAL_FUNCTION),
        }
    }

    /// Carries out a request that meets no exception.
    #[tactic(auto, unfolding(crate::specs::Table::plain_reply, crate::specs::Table::written))]
    fn carry_out(&mut self, pdu: &RequestPdu) -> Result<ReplyPdu, Want>
        requires none { exception_for self.old pdu.now ≡ None }
        requires fits { IsTrue (request_pdu_fits pdu.now) }
        ensures reply { IfOk result (λ reply. reply ≡ plain_reply self.old pdu.now) }
        ensures after { OnOk result (self.new ≡ written self.old pdu.now) }
        ensures memory { is_read pdu.now ≡ false → IsOk result }
        ensures err { OnErr result (self.new ≡ self.old) }
        ensures fits { IfOk result (λ reply. IsTrue (reply_pdu_fits reply)) }
        ensures wide { IfOk result FitsReplyPdu }
    {
        match pdu {
            RequestPdu::ReadBits {
                function,
                place,
                quantity,
            } => self.read_bits(*function, *place, *quantity),
            RequestPdu::ReadRegisters {
                function,
                place,
                quantity,
            } => self.read_registers(*function, *place, *quantity),
            RequestPdu::WriteCoil { place, value } => {
                self.coils[*place as usize] = *value == COIL_ON;
                Ok(wrote(5, *place, *value))
            }
            RequestPdu::WriteRegister { place, value } => {
                self.holding[*place as usize] = *value;
                Ok(wrote(6, *place, *value))
            }
            RequestPdu::WriteCoils {
                place,
                quantity,
                bytes,
            } => {
                let (from, count) = (*place as usize, *quantity as usize);
                write_bits(&mut self.coils, from, count, bytes.as_slice());
                Ok(wrote_many(15, *place, *quantity))
            }
            RequestPdu::WriteRegisters {
                place,
                quantity,
                bytes,
            } => {
                let (from, count) = (*place as usize, *quantity as usize);
                write_registers(&mut self.holding, from, count, bytes.as_slice());
                Ok(wrote_many(16, *place, *quantity))
            }
            RequestPdu::Other { function, .. } => Ok(exception(*function, ILLEGAL_FUNCTION)),
        }
    }

    fn read_bits(&self, function: u8, place: u16, quantity: u16) -> Result<ReplyPdu, Want>
        requires there { place + quantity ≤ length (bits_of self.now function) }
        requires few { quantity ≤ MOST_BITS_READ }
        requires function { IsTrue (nat_eq function 1 || nat_eq function 2) }
        ensures fits { IfOk result (λ reply. IsTrue (reply_pdu_fits reply)) }
        ensures reply { IfOk result (λ reply. reply ≡ ReplyPdu.Bits function (packed (take quantity (drop place (bits_of self.now function))))) }
    {
        let (_, rest) = self.bits_of(function).split_at(place as usize);
        let (read, _) = rest.split_at(quantity as usize);
        Ok(ReplyPdu::Bits {
            function,
            bytes: Bytes::from_vec(self.alloc, pack(self.alloc, read)?)?,
        })
    }

    fn read_registers(&self, function: u8, place: u16, quantity: u16) -> Result<ReplyPdu, Want>
        requires there { place + quantity ≤ length (registers_of self.now function) }
        requires few { quantity ≤ MOST_REGISTERS_READ }
        requires function { IsTrue (nat_eq function 3 || nat_eq function 4) }
        ensures fits { IfOk result (λ reply. IsTrue (reply_pdu_fits reply)) }
        ensures reply { IfOk result (λ reply. reply ≡ ReplyPdu.Registers function (register_bytes (take quantity (drop place (registers_of self.now function))))) }
    {
        let (_, rest) = self.registers_of(function).split_at(place as usize);
        let (read, _) = rest.split_at(quantity as usize);
        Ok(ReplyPdu::Registers {
            function,
            bytes: Bytes::from_vec(self.alloc, spell(self.alloc, read)?)?,
        })
    }

    fn bits_of(&self, function: u8) -> &[bool]
        ensures { result.now ≡ bits_of self.now function }
    {
        if function == 1 {
            self.coils.as_slice()
        } else {
            self.discrete.as_slice()
        }
    }

    fn registers_of(&self, function: u8) -> &[u16]
        ensures { result.now ≡ registers_of self.now function }
    {
        if function == 3 {
            self.holding.as_slice()
        } else {
            self.input.as_slice()
        }
    }
}

fn function_of(pdu: &RequestPdu) -> u8
    ensures { result ≡ function_of pdu.now }
{
    match pdu {
        RequestPdu::ReadBits { function, .. } => *function,
        RequestPdu::ReadRegisters { function, .. } => *function,
        RequestPdu::WriteCoil { .. } => 5,
        RequestPdu::WriteRegister { .. } => 6,
        RequestPdu::WriteCoils { .. } => 15,
        RequestPdu::WriteRegisters { .. } => 16,
        RequestPdu::Other { function, .. } => *function,
    }
}

fn wrote(function: u8, place: u16, value: u16) -> ReplyPdu
    ensures { result ≡ ReplyPdu.Wrote function place value }
{
    ReplyPdu::Wrote {
        function,
        place,
        value,
    }
}

fn wrote_many(function: u8, place: u16, quantity: u16) -> ReplyPdu
    ensures { result ≡ ReplyPdu.WroteMany function place quantity }
{
    ReplyPdu::WroteMany {
        function,
        place,
        quantity,
    }
}

/// Whether so many places from one on are within an area.
fn reaches(place: u16, quantity: u16, size: usize) -> bool
    ensures { result ≡ nat_le (place + quantity) size }
{
    place as usize + quantity as usize <= size
}

fn is_between(low: u16, high: u16, number: u16) -> bool
    ensures { result ≡ is_between low high number }
{
    low <= number && number <= high
}

fn is_coil_value(value: u16) -> bool
    ensures { result ≡ is_coil_value value }
{
    value == COIL_ON || value == COIL_OFF
}

/// Whether so many bytes are those of a quantity of 1 to `most`.
fn are_counted(most: u16, quantity: u16, bytes: usize, wanted: usize) -> bool
    ensures { result ≡ (is_between 1 most quantity && nat_eq bytes wanted) }
{
    is_between(1, most, quantity) && bytes == wanted
}

/// The code of the exception, if any: a value is tried before a place.
fn refusal(is_value: bool, is_place: bool) -> Option<u8>
    ensures { result ≡ refused is_value is_place }
{
    if !is_value {
        Some(ILLEGAL_VALUE)
    } else if !is_place {
        Some(ILLEGAL_PLACE)
    } else {
        None
    }
}

fn exception(function: u8, code: u8) -> ReplyPdu
    ensures { result ≡ exception function code }
{
    let function = if function < 128 {
        function + 128
    } else {
        function
    };
    ReplyPdu::Exception { function, code }
}

/// Writes one element, where it is there.
fn write_at<T: Copy>(list: &mut Vec<T, Global>, place: usize, value: T) -> Result<(), NoPlace>
    ensures ok { OnOk result (list.new.items ≡ slice_set list.old.items place value) }
    ensures err { OnErr result (list.new.items ≡ list.old.items) }
    ensures no_place { IsErr result ↔ (length list.old.items ≤ place) }
{
    if place >= list.len() {
        return Err(NoPlace);
    }
    list[place] = value;
    Ok(())
}
