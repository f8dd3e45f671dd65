//! Frames from their grammar, with wrong fields among them.
use crate::draws::Draws;
use crate::fields::{fields_of, put_plain};
use crate::keys::{ACTORS, Keys};
use anyhow::Result;
use std::alloc::Global;
use wire_parts::{put_bytes, put_u16, put_u32, put_u64};

// The kinds in an order in which each stands behind those that it holds.
const KINDS: [u16; 21] = [
    1, 3, 4, 6, 7, 8, 9, 10, 11, 12, 13, 16, 18, 20, 21, 2, 5, 14, 15, 17, 19,
];

/// A frame that others may hold.
#[derive(Drop)]
struct Inner {
    kind: u16,
    signer: u32,
    bytes: Vec<u8>,
}

/// Makes frames, and holds some that are put into others.
#[derive(Drop)]
pub struct Frames {
    alloc: Global,
    /// Where there are none, signatures are a few bytes that sign nothing.
    keys: Option<Keys>,
    /// By kinds, and the signers of a kind don't fall.
    inner: Vec<Inner>,
}

impl Frames {
    /// Frames whose signatures sign nothing.
    pub fn unsigned(alloc: Global) -> Result<Frames> {
        Frames::filled(alloc, None)
    }

    /// Frames that are mostly signed by their signers.
    pub fn signed(alloc: Global) -> Result<Frames> {
        let keys = Keys::make(alloc)?;
        Frames::filled(alloc, Some(keys))
    }

    fn filled(alloc: Global, keys: Option<Keys>) -> Result<Frames> {
        let mut frames = Frames {
            alloc,
            keys,
            inner: Vec::new(alloc),
        };
        let mut draws = Draws::of_input(0, 0);
        for kind in KINDS {
            for place in 0..2 * ACTORS {
                frames.hold(&mut draws, place / 2, kind)?;
            }
        }
        Ok(frames)
    }

    // Makes a frame, which is put into others from now on.
    fn hold(&mut self, draws: &mut Draws, signer: u32, kind: u16) -> Result<()> {
        let bytes = self.frame_of(draws, signer, kind)?;
        self.inner.push(Inner {
            kind,
            signer,
            bytes,
        })?;
        Ok(())
    }

    /// A frame of some kind.
    pub fn frame(&self, draws: &mut Draws) -> Result<Vec<u8>> {
        let kind = KINDS[draws.place(KINDS.len())];
        let signer = self.signer(draws, kind);
        self.frame_of(draws, signer, kind)
    }

    // Mostly an actor whose role says such words.
    fn signer(&self, draws: &mut Draws, kind: u16) -> u32 {
        if draws.one_in(24) {
            return (draws.number() & 0xffff_ffff) as u32;
        }
        if kind == 1 {
            4 + draws.below(2)
        } else {
            draws.below(4)
        }
    }

    fn frame_of(&self, draws: &mut Draws, signer: u32, kind: u16) -> Result<Vec<u8>> {
        let mut body = Vec::new(self.alloc);
        put_u16(&mut body, kind)?;
        for field in fields_of(kind).bytes() {
            self.put_field(draws, &mut body, field)?;
        }
        let mut bytes = Vec::new(self.alloc);
        put_u32(&mut bytes, signer)?;
        put_sized(&mut bytes, &body)?;
        let sig = self.signature(draws, signer, &body)?;
        put_sized(&mut bytes, &sig)?;
        Ok(bytes)
    }

    fn signature(&self, draws: &mut Draws, signer: u32, body: &[u8]) -> Result<Vec<u8>> {
        if let Some(keys) = &self.keys {
            let by = if draws.one_in(16) {
                draws.below(ACTORS)
            } else {
                signer
            };
            return keys.sign(draws, by, body);
        }
        let mut sig = Vec::new(self.alloc);
        for _ in 0..draws.below(4) {
            sig.push(draws.byte())?;
        }
        Ok(sig)
    }

    // The field of this letter, as `fields_of` has it.
    fn put_field(&self, draws: &mut Draws, out: &mut Vec<u8>, field: u8) -> Result<()> {
        match field {
            b'U' => self.put_inner(draws, out, 1),
            b'P' => self.put_inner(draws, out, 2),
            b'a' => self.put_list(draws, out, 3),
            b's' => self.put_list(draws, out, 4),
            b'c' => self.put_list(draws, out, 7),
            b'r' => self.put_list(draws, out, 14),
            b'm' => self.put_list(draws, out, 21),
            b'C' => self.put_certificates(draws, out),
            _ => put_plain(draws, out, field),
        }
    }

    // A frame of this kind, seldom of another.
    fn put_inner(&self, draws: &mut Draws, out: &mut Vec<u8>, kind: u16) -> Result<()> {
        let other = draws.one_in(32);
        let mut skipped = draws.below(2 * ACTORS);
        for inner in &self.inner {
            if other || inner.kind == kind {
                if skipped == 0 {
                    put_bytes(out, &inner.bytes)?;
                    return Ok(());
                }
                skipped -= 1;
            }
        }
        Ok(())
    }

    // Frames of this kind whose signers rise, seldom others.
    fn put_list(&self, draws: &mut Draws, out: &mut Vec<u8>, kind: u16) -> Result<()> {
        let mut list = Vec::new(self.alloc);
        let mut count: u16 = 0;
        let mut lowest = 0;
        for inner in &self.inner {
            let fits = inner.kind == kind && lowest <= inner.signer;
            if draws.one_in(if fits { 2 } else { 512 }) {
                put_bytes(&mut list, &inner.bytes)?;
                count = count.wrapping_add(1);
                lowest = inner.signer.saturating_add(1);
            }
        }
        let told = if draws.one_in(64) {
            (draws.number() & 0xffff) as u16
        } else {
            count
        };
        put_u16(out, told)?;
        put_bytes(out, &list)?;
        Ok(())
    }

    fn put_certificates(&self, draws: &mut Draws, out: &mut Vec<u8>) -> Result<()> {
        let count = draws.below(3) as u16;
        put_u16(out, count)?;
        let mut number = draws.number();
        for _ in 0..count {
            put_u64(out, number)?;
            put_u64(out, draws.number())?;
            put_plain(draws, out, b'R')?;
            self.put_list(draws, out, 6)?;
            number = number.saturating_add(u64::from(draws.below(4)));
        }
        Ok(())
    }
}

// The bytes behind their length.
fn put_sized(out: &mut Vec<u8>, bytes: &[u8]) -> Result<()> {
    put_u32(out, (bytes.len() as u64 & 0xffff_ffff) as u32)?;
    put_bytes(out, bytes)?;
    Ok(())
}
