ghost use Rattle.std.specs.Prelude.{◌≡◌, ◌++◌, OnErr, OnOk};
ghost use Rattle.wire_parts.specs.Fields.{u8_bytes, u16_bytes, u32_bytes, u64_bytes, i64_bytes};

use byteorder::{BigEndian, ByteOrder};
use plain_lists::Want;

/// Appends bytes as they stand.
pub fn put_bytes(out: &mut Vec<u8>, piece: &[u8]) -> Result<(), Want>
    ensures ok { OnOk result (out.new.items ≡ out.old.items ++ piece.now) }
    ensures err { OnErr result (out.new.items ≡ out.old.items) }
{
    out.extend_from_slice(piece)?;
    Ok(())
}

pub fn put_u8(out: &mut Vec<u8>, value: u8) -> Result<(), Want>
    ensures ok { OnOk result (out.new.items ≡ out.old.items ++ u8_bytes value) }
    ensures err { OnErr result (out.new.items ≡ out.old.items) }
{
    put_bytes(out, &[value])
}

#[tactic(auto, unfolding(crate::specs::Fields::u16_bytes))]
pub fn put_u16(out: &mut Vec<u8>, value: u16) -> Result<(), Want>
    ensures ok { OnOk result (out.new.items ≡ out.old.items ++ u16_bytes value) }
    ensures err { OnErr result (out.new.items ≡ out.old.items) }
{
    let mut field = [0; 2];
    BigEndian::write_u16(&mut field, value);
    put_bytes(out, &field)
}

#[tactic(auto, unfolding(crate::specs::Fields::u32_bytes))]
pub fn put_u32(out: &mut Vec<u8>, value: u32) -> Result<(), Want>
    ensures ok { OnOk result (out.new.items ≡ out.old.items ++ u32_bytes value) }
    ensures err { OnErr result (out.new.items ≡ out.old.items) }
{
    let mut field = [0; 4];
    BigEndian::write_u32(&mut field, value);
    put_bytes(out, &field)
}

#[tactic(auto, unfolding(crate::specs::Fields::u64_bytes))]
pub fn put_u64(out: &mut Vec<u8>, value: u64) -> Result<(), Want>
    ensures ok { OnOk result (out.new.items ≡ out.old.items ++ u64_bytes value) }
    ensures err { OnErr result (out.new.items ≡ out.old.items) }
{
    let mut field = [0; 8];
    BigEndian::write_u64(&mut field, value);
    put_bytes(out, &field)
}

/// Appends a signed number, in two's complement.
pub fn put_i64(out: &mut Vec<u8>, value: i64) -> Result<(), Want>
    ensures ok { OnOk result (out.new.items ≡ out.old.items ++ i64_bytes value) }
    ensures err { OnErr result (out.new.items ≡ out.old.items) }
{
    put_u64(out, value.cast_unsigned())
}
