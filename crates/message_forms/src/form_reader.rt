ghost use Rattle.std.specs.Prelude.{◌≡◌, ◌+◌, ◌^◌, ◌<◌, ◌≤◌, length, IfOk};
ghost use Rattle.message_forms.specs.Grammar.{at, number_at, signed_number_at, bytes_at, length_at, end_at, field_at};
ghost use Rattle.message_forms.specs.Gives.{Gives, GivesBytes, GivesPart};

use crate::refusal::FormRefusal;
use std::marker::Model;
use wire_parts::Reader;

/// Reads a part of the input, and knows where in the input it stands. A refused reader is not used again.
#[derive(Drop)]
pub struct FormReader<'a> {
    base: u64,
    reader: Reader<'a>,
}

impl<'a> Model for FormReader<'a> {
    ghost use Rattle.std.specs.Prelude.{◌+◌, ◌^◌, ◌<◌, length};
    ghost use Rattle.wire_parts.specs.View.{View};

    ghost Value = { View };

    ghost view = { λ form. record { place = form.base + form.reader.place; rest = form.reader.rest } };

    ghost invariant = { λ form. form.base + form.reader.place + length form.reader.rest < 2 ^ 64 };
}

impl<'a> FormReader<'a> {
    /// A reader of the whole input.
    pub fn over(bytes: &'a [u8]) -> FormReader<'a>
        ensures place { result.place ≡ 0 }
        ensures rest { result.rest ≡ bytes.now }
    {
        let _fits = bytes.len();
        FormReader {
            base: 0,
            reader: Reader::over(bytes),
        }
    }

    pub fn place(&self) -> u64
        ensures place { result ≡ self.now.place }
        ensures fits { self.now.place + length self.now.rest < 2 ^ 64 }
    {
        self.base + self.reader.place()
    }

    pub fn u8(&mut self) -> Result<u8, FormRefusal>
        ensures { Gives result self.new (number_at 1 self.old) }
    {
        let place = self.place();
        let Ok(number) = self.reader.u8() else {
            return Err(FormRefusal::Short { place });
        };
        Ok(number)
    }

    pub fn u16(&mut self) -> Result<u16, FormRefusal>
        ensures { Gives result self.new (number_at 2 self.old) }
    {
        let place = self.place();
        let Ok(number) = self.reader.u16() else {
            return Err(FormRefusal::Short { place });
        };
        Ok(number)
    }

    pub fn u32(&mut self) -> Result<u32, FormRefusal>
        ensures { Gives result self.new (number_at 4 self.old) }
    {
        let place = self.place();
        let Ok(number) = self.reader.u32() else {
            return Err(FormRefusal::Short { place });
        };
        Ok(number)
    }

    pub fn u64(&mut self) -> Result<u64, FormRefusal>
        ensures { Gives result self.new (number_at 8 self.old) }
    {
        let place = self.place();
        let Ok(number) = self.reader.u64() else {
            return Err(FormRefusal::Short { place });
        };
        Ok(number)
    }

    pub fn i64(&mut self) -> Result<i64, FormRefusal>
        ensures { Gives result self.new (signed_number_at self.old) }
    {
        let bits = self.u64()?;
        Ok(bits.cast_signed())
    }

    /// The next `count` bytes.
    pub fn bytes(&mut self, count: u64) -> Result<&'a [u8], FormRefusal>
        ensures gives { GivesBytes result self.new (bytes_at count self.old) }
        ensures count { IfOk result (λ piece. length piece.now ≡ count) }
        ensures within { IfOk result (λ piece. length piece.now ≤ length self.old.rest) }
    {
        let place = self.place();
        let Ok(piece) = self.reader.bytes(count) else {
            return Err(FormRefusal::Short { place });
        };
        Ok(piece)
    }

    /// A reader of the next `count` bytes alone.
    pub fn part(&mut self, count: u64) -> Result<FormReader<'a>, FormRefusal>
        ensures { GivesPart result self.old.place self.new (bytes_at count self.old) }
    {
        let base = self.place();
        let piece = self.bytes(count)?;
        Ok(FormReader {
            base,
            reader: Reader::over(piece),
        })
    }

    /// Nothing may be left.
    pub fn end(&self) -> Result<(), FormRefusal>
        ensures { Gives result self.now (end_at self.now) }
    {
        let place = self.place();
        if self.reader.end().is_err() {
            return Err(FormRefusal::Trailing { place });
        }
        Ok(())
    }
}
