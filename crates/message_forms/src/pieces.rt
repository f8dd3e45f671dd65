ghost use Rattle.std.specs.Prelude.{◌≡◌, ◌-◌, ℕ, List, Option, IsTrue};
ghost use Rattle.wire_parts.specs.View.{View};
ghost use Rattle.message_forms.specs.Grammar.{Reading, mark_here, count_at, length_at, key_at, is_above, enclosed, signed_at, signer_of, no_key, items_at, list_at, frames_at, number_at};
ghost use Rattle.message_forms.specs.Gives.{Gives};

use crate::form_reader::FormReader;
use crate::refusal::FormRefusal;
use message_types::{MOST_BODY_BYTES, MOST_LISTED, MOST_SIGNATURE_BYTES, Signed};
use plain_lists::{Bytes, Items};
use std::alloc::Global;

/// A body that is read as a frame's, its kind first.
pub trait Readable: Drop {
    ghost form: { View → Reading Self };

    fn read(alloc: Global, reader: &mut FormReader<'_>) -> Result<Self, FormRefusal>
        ensures { Gives result reader.new (form reader.old) };
}

/// An item of a list. In an ordered list each has a key above that of the item before it.
pub trait Listed: Drop {
    ghost item: { Option ℕ → View → Reading Self };

    ghost key: { Self → Option ℕ };

    fn read_item(
        alloc: Global,
        reader: &mut FormReader<'_>,
        before: Option<u64>,
    ) -> Result<Self, FormRefusal>
        ensures { Gives result reader.new (item before reader.old) };

    fn key_of(&self) -> Option<u64>
        ensures { result ≡ key self.now };
}

/// A number of 16 bits that has to stand there.
#[tactic(auto, unfolding(crate::specs::Grammar::checked_at))]
pub fn mark16(reader: &mut FormReader<'_>, mark: u16) -> Result<u16, FormRefusal>
    ensures { Gives result reader.new (mark_here 2 mark reader.old) }
{
    let place = reader.place();
    let found = reader.u16()?;
    if found == mark {
        Ok(found)
    } else {
        Err(FormRefusal::UnknownKind { place })
    }
}

#[tactic(auto, unfolding(crate::specs::Grammar::checked_at))]
fn count(reader: &mut FormReader<'_>, most: u16) -> Result<u16, FormRefusal>
    ensures { Gives result reader.new (count_at most reader.old) }
{
    let place = reader.place();
    let found = reader.u16()?;
    if found <= most {
        Ok(found)
    } else {
        Err(FormRefusal::TooMany { place })
    }
}

#[tactic(auto, unfolding(crate::specs::Grammar::checked_at))]
fn length(reader: &mut FormReader<'_>, most: u32) -> Result<u32, FormRefusal>
    ensures { Gives result reader.new (length_at most reader.old) }
{
    let place = reader.place();
    let found = reader.u32()?;
    if found <= most {
        Ok(found)
    } else {
        Err(FormRefusal::TooLong { place })
    }
}

fn is_above(before: Option<u64>, key: u64) -> bool
    ensures { result ≡ is_above before (Some key) }
{
    match before {
        None => true,
        Some(last) => last < key,
    }
}

#[tactic(auto, unfolding(crate::specs::Grammar::checked_at))]
fn signer(reader: &mut FormReader<'_>, before: Option<u64>) -> Result<u32, FormRefusal>
    ensures { Gives result reader.new (key_at 4 before reader.old) }
{
    let place = reader.place();
    let found = reader.u32()?;
    if is_above(before, u64::from(found)) {
        Ok(found)
    } else {
        Err(FormRefusal::BadOrder { place })
    }
}

#[tactic(auto, unfolding(crate::specs::Grammar::checked_at))]
pub fn number_above(reader: &mut FormReader<'_>, before: Option<u64>) -> Result<u64, FormRefusal>
    ensures { Gives result reader.new (key_at 8 before reader.old) }
{
    let place = reader.place();
    let found = reader.u64()?;
    if is_above(before, found) {
        Ok(found)
    } else {
        Err(FormRefusal::BadOrder { place })
    }
}

// A frame's body and signature, each behind its length.
#[tactic(auto, unfolding(crate::specs::Grammar::enclosed))]
fn enclosed<B: Readable>(
    alloc: Global,
    reader: &mut FormReader<'_>,
) -> Result<(B, Bytes), FormRefusal>
    ensures { Gives result reader.new (enclosed B.form reader.old) }
{
    let size = length(reader, MOST_BODY_BYTES)?;
    let mut part = reader.part(u64::from(size))?;
    let body = B::read(alloc, &mut part)?;
    part.end()?;
    let count = length(reader, MOST_SIGNATURE_BYTES)?;
    let sig = reader.bytes(u64::from(count))?;
    Ok((body, Bytes::from_slice(alloc, sig)?))
}

/// A frame, behind one of the signer `before`.
#[tactic(auto, unfolding(crate::specs::Grammar::signed_at))]
pub fn signed<B: Readable>(
    alloc: Global,
    reader: &mut FormReader<'_>,
    before: Option<u64>,
) -> Result<Signed<B>, FormRefusal>
    ensures { Gives result reader.new (signed_at B.form before reader.old) }
{
    let signer = signer(reader, before)?;
    let (body, sig) = enclosed(alloc, reader)?;
    Ok(Signed { signer, body, sig })
}

impl<B: Readable> Listed for Signed<B> {
    ghost item = { signed_at B.form };

    ghost key = { signer_of };

    fn read_item(
        alloc: Global,
        reader: &mut FormReader<'_>,
        before: Option<u64>,
    ) -> Result<Self, FormRefusal> {
        signed(alloc, reader, before)
    }

    fn key_of(&self) -> Option<u64> {
        Some(u64::from(self.signer))
    }
}

// So many items.
fn items<T: Listed>(
    alloc: Global,
    reader: &mut FormReader<'_>,
    count: u16,
) -> Result<Items<T>, FormRefusal>
    ensures { Gives result reader.new (items_at T.item T.key count None reader.old) }
{
    let mut read = Items::new(alloc);
    let mut before = None;
    for _place in 0..count {
        let item = T::read_item(alloc, reader, before)?;
        before = item.key_of();
        read.push(item)?;
    }
    Ok(read)
}

/// A list of at most so many items.
#[tactic(auto, unfolding(crate::specs::Grammar::list_at))]
pub fn list<T: Listed>(
    alloc: Global,
    reader: &mut FormReader<'_>,
    most: u16,
) -> Result<Items<T>, FormRefusal>
    ensures { Gives result reader.new (list_at most T.item T.key reader.old) }
{
    let count = count(reader, most)?;
    items(alloc, reader, count)
}

/// A list of frames, whose signers rise.
pub fn frames<B: Readable>(
    alloc: Global,
    reader: &mut FormReader<'_>,
) -> Result<Items<Signed<B>>, FormRefusal>
    ensures { Gives result reader.new (frames_at B.form reader.old) }
{
    list(alloc, reader, MOST_LISTED)
}
