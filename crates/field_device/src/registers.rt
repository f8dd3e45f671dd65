//! Registers in the bytes of requests and replies.
ghost use Rattle.std.specs.Prelude.{◌≡◌, ◌≤◌, ◌<◌, ◌+◌, ◌*◌, List, length, IfOk};
ghost use Rattle.field_device.specs.Packing.{register_bytes, register_in, registers_in, overwritten};

use crate::limits::MOST_REGISTERS_READ;
use byteorder::{BigEndian, ByteOrder};
use plain_lists::Want;
use std::alloc::Global;
use wire_parts::put_u16;

/// Registers in bytes, two each.
#[tactic(auto, unfolding(crate::specs::Packing::register_bytes))]
pub fn spell(alloc: Global, registers: &[u16]) -> Result<Vec<u8>, Want>
    requires { length registers.now ≤ MOST_REGISTERS_READ }
    ensures bytes { IfOk result (λ bytes. bytes.items ≡ register_bytes registers.now) }
    ensures few { IfOk result (λ bytes. length bytes.items ≤ 250) }
{
    let mut bytes = Vec::with_capacity(alloc, 2 * registers.len())?;
    for register in registers {
        put_u16(&mut bytes, *register)?;
    }
    Ok(bytes)
}

/// Register number i of bytes.
#[tactic(auto, unfolding(wire_parts::specs::Fields::u16_at))]
fn register_in(bytes: &[u8], i: usize) -> u16
    requires { 2 * i + 2 ≤ length bytes.now }
    ensures { result ≡ register_in bytes.now i }
{
    let (_, rest) = bytes.split_at(2 * i);
    BigEndian::read_u16(rest)
}

/// Writes the first registers of bytes over those from a place on.
pub fn write_registers(registers: &mut [u16], place: usize, count: usize, bytes: &[u8])
    requires there { place + count ≤ length registers.old }
    requires enough { 2 * count ≤ length bytes.now }
    ensures { registers.new ≡ overwritten registers.old place (registers_in count bytes.now) }
{
    for i in 0..count {
        registers[place + i] = register_in(bytes, i);
    }
}
