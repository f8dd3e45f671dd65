ghost use Rattle.std.specs.Prelude.{◌≡◌, ◌↔◌, ◌+◌, ◌^◌, ◌<◌, ◌≤◌, ◌⊎◌, length, IsErr, IsErrOf, IfOk, IfErr, OnErr, OnOk};
ghost use Rattle.wire_parts.specs.Fields.{u8_bytes, u16_bytes, u32_bytes, u64_bytes, i64_bytes, u16_at};
ghost use Rattle.wire_parts.specs.View.{Takes, IsAbove};

use byteorder::{BigEndian, ByteOrder};
use std::marker::Model;
use thiserror::Error;

/// Why a field can't be read. `place` is that of the field's first byte, counted from the first
/// byte that the reader was given.
#[derive(Clone, Copy, Debug, PartialEq, Eq, Error)]
pub enum PartRefusal {
    /// Fewer bytes are left than the field has.
    #[error("the bytes end inside the field at {place}")]
    Short { place: u64 },
    /// The length of a list is above what the list may have.
    #[error("the list at {place} is too long")]
    TooMany { place: u64 },
    /// A byte is left where the bytes were to end.
    #[error("bytes are left at {place}")]
    Trailing { place: u64 },
}

/// Reads fields from the front of bytes. It takes no memory, and a refused read leaves it as it was.
#[derive(Drop)]
pub struct Reader<'a> {
    rest: &'a [u8],
    place: u64,
}

impl<'a> Model for Reader<'a> {
    ghost use Rattle.std.specs.Prelude.{◌+◌, ◌^◌, ◌<◌, length};
    ghost use Rattle.wire_parts.specs.View.{View};

    ghost Value = { View };

    ghost view = { λ reader. record { place = reader.place; rest = reader.rest.now } };

    ghost invariant = { λ reader. reader.place + length reader.rest.now < 2 ^ 64 };
}

impl<'a> Reader<'a> {
    /// A reader that stands before the first of `bytes`.
    pub fn over(bytes: &'a [u8]) -> Reader<'a>
        ensures place { result.place ≡ 0 }
        ensures rest { result.rest ≡ bytes.now }
    {
        let _fits = bytes.len();
        Reader {
            rest: bytes,
            place: 0,
        }
    }

    /// How many bytes were read.
    pub fn place(&self) -> u64
        ensures place { result ≡ self.now.place }
        ensures fits { self.now.place + length self.now.rest < 2 ^ 64 }
    {
        let _rest = self.rest.len();
        self.place
    }

    /// The next `count` bytes, as they stand.
    pub fn bytes(&mut self, count: u64) -> Result<&'a [u8], PartRefusal>
        ensures taken { IfOk result (λ piece. Takes self.old self.new piece.now) }
        ensures count { IfOk result (λ piece. length piece.now ≡ count) }
        ensures short { IsErr result ↔ (length self.old.rest < count) }
        ensures refusal { IfErr result (λ e. e ≡ PartRefusal.Short self.old.place) }
        ensures unchanged { OnErr result (self.new ≡ self.old) }
    {
        let left = self.rest.len() as u64;
        if left < count {
            return Err(PartRefusal::Short { place: self.place });
        }
        let (piece, rest) = self.rest.split_at(count as usize);
        self.rest = rest;
        self.place += count;
        Ok(piece)
    }

    pub fn u8(&mut self) -> Result<u8, PartRefusal>
        ensures taken { IfOk result (λ x. Takes self.old self.new (u8_bytes x)) }
        ensures short { IsErr result ↔ (length self.old.rest < 1) }
        ensures refusal { IfErr result (λ e. e ≡ PartRefusal.Short self.old.place) }
        ensures unchanged { OnErr result (self.new ≡ self.old) }
    {
        let field = self.bytes(1)?;
        Ok(field[0])
    }

    pub fn u16(&mut self) -> Result<u16, PartRefusal>
        ensures taken { IfOk result (λ x. Takes self.old self.new (u16_bytes x)) }
        ensures short { IsErr result ↔ (length self.old.rest < 2) }
        ensures refusal { IfErr result (λ e. e ≡ PartRefusal.Short self.old.place) }
        ensures unchanged { OnErr result (self.new ≡ self.old) }
    {
        let field = self.bytes(2)?;
        Ok(u16_of(field))
    }

    pub fn u32(&mut self) -> Result<u32, PartRefusal>
        ensures taken { IfOk result (λ x. Takes self.old self.new (u32_bytes x)) }
        ensures short { IsErr result ↔ (length self.old.rest < 4) }
        ensures refusal { IfErr result (λ e. e ≡ PartRefusal.Short self.old.place) }
        ensures unchanged { OnErr result (self.new ≡ self.old) }
    {
        let field = self.bytes(4)?;
        Ok(u32_of(field))
    }

    pub fn u64(&mut self) -> Result<u64, PartRefusal>
        ensures taken { IfOk result (λ x. Takes self.old self.new (u64_bytes x)) }
        ensures short { IsErr result ↔ (length self.old.rest < 8) }
        ensures refusal { IfErr result (λ e. e ≡ PartRefusal.Short self.old.place) }
        ensures unchanged { OnErr result (self.new ≡ self.old) }
    {
        let field = self.bytes(8)?;
        Ok(u64_of(field))
    }

    /// A signed number, in two's complement.
    pub fn i64(&mut self) -> Result<i64, PartRefusal>
        ensures taken { IfOk result (λ z. Takes self.old self.new (i64_bytes z)) }
        ensures short { IsErr result ↔ (length self.old.rest < 8) }
        ensures refusal { IfErr result (λ e. e ≡ PartRefusal.Short self.old.place) }
        ensures unchanged { OnErr result (self.new ≡ self.old) }
    {
        let bits = self.u64()?;
        Ok(bits.cast_signed())
    }

    /// The length of a list that may have at most `most` items: a 16-bit field.
    pub fn list_len(&mut self, most: u16) -> Result<u16, PartRefusal>
        ensures taken { IfOk result (λ count. Takes self.old self.new (u16_bytes count)) }
        ensures within { IfOk result (λ count. count ≤ most) }
        ensures short { IsErrOf result (PartRefusal.Short self.old.place) ↔ (length self.old.rest < 2) }
        ensures too_many { IsErrOf result (PartRefusal.TooMany self.old.place) ↔ IsAbove self.old.rest most }
        ensures refusal { IfErr result (λ e. (e ≡ PartRefusal.Short self.old.place)
            ⊎ (e ≡ PartRefusal.TooMany self.old.place)) }
        ensures unchanged { OnErr result (self.new ≡ self.old) }
    {
        let mut ahead = Reader {
            rest: self.rest,
            place: self.place,
        };
        let count = ahead.u16()?;
        if count > most {
            return Err(PartRefusal::TooMany { place: self.place });
        }
        *self = ahead;
        Ok(count)
    }

    /// Nothing may be left.
    pub fn end(&self) -> Result<(), PartRefusal>
        ensures trailing { IsErr result ↔ (0 < length self.now.rest) }
        ensures refusal { IfErr result (λ e. e ≡ PartRefusal.Trailing self.now.place) }
    {
        if self.rest.is_empty() {
            Ok(())
        } else {
            Err(PartRefusal::Trailing { place: self.place })
        }
    }
}

// The number in 2 bytes, which are that number's bytes.
fn u16_of(field: &[u8]) -> u16
    requires { length field.now ≡ 2 }
    ensures { u16_bytes result ≡ field.now }
{
    BigEndian::read_u16(field)
}

fn u32_of(field: &[u8]) -> u32
    requires { length field.now ≡ 4 }
    ensures { u32_bytes result ≡ field.now }
{
    BigEndian::read_u32(field)
}

fn u64_of(field: &[u8]) -> u64
    requires { length field.now ≡ 8 }
    ensures { u64_bytes result ≡ field.now }
{
    BigEndian::read_u64(field)
}
