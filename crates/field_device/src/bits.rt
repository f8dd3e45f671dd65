//! Bits in the bytes of requests and replies.
ghost use Rattle.std.specs.Prelude.{◌≡◌, ◌≤◌, ◌<◌, ◌+◌, ◌*◌, ◌/◌, ◌^◌, Bool, List, length, IfOk};
ghost use Rattle.field_device.specs.Packing.{byte_of, eight_from, packed, bit_in, bits_in, overwritten};

use crate::limits::MOST_BITS_READ;
use plain_lists::Want;
use std::alloc::Global;

/// Up to eight bits as a byte, the first as the lowest.
fn byte_of(bits: &[bool]) -> u8
    requires { length bits.now ≤ 8 }
    ensures byte { result ≡ byte_of bits.now }
    ensures within { result < 2 ^ length bits.now }
{
    match bits {
        [] => 0,
        [first, rest @ ..] => u8::from(*first) + 2 * byte_of(rest),
    }
}

/// The bits number 8k to 8k + 7 as a byte.
fn byte_number(bits: &[bool], k: usize) -> u8
    requires { 8 * k ≤ length bits.now }
    ensures { result ≡ byte_of (eight_from bits.now k) }
{
    let (_, rest) = bits.split_at(8 * k);
    let count = rest.len().min(8);
    let (eight, _) = rest.split_at(count);
    byte_of(eight)
}

/// Bits in bytes.
pub fn pack(alloc: Global, bits: &[bool]) -> Result<Vec<u8>, Want>
    requires { length bits.now ≤ MOST_BITS_READ }
    ensures bytes { IfOk result (λ bytes. bytes.items ≡ packed bits.now) }
    ensures few { IfOk result (λ bytes. length bytes.items ≤ 250) }
{
    let count = (bits.len() + 7) / 8;
    let mut bytes = Vec::with_capacity(alloc, count)?;
    for k in 0..count {
        bytes.push(byte_number(bits, k))?;
    }
    Ok(bytes)
}

/// Bit number i of bytes.
fn bit_in(bytes: &[u8], i: usize) -> bool
    requires { i / 8 < length bytes.now }
    ensures { result ≡ bit_in bytes.now i }
{
    (bytes[i / 8] >> (i % 8)) % 2 == 1
}

/// Writes the first bits of bytes over those from a place on.
pub fn write_bits(bits: &mut [bool], place: usize, count: usize, bytes: &[u8])
    requires there { place + count ≤ length bits.old }
    requires enough { count ≤ 8 * length bytes.now }
    ensures { bits.new ≡ overwritten bits.old place (bits_in count bytes.now) }
{
    for i in 0..count {
        bits[place + i] = bit_in(bytes, i);
    }
}
