//! Kept entries from their grammar.
use crate::draws::Draws;
use crate::fields::put_plain;
use crate::frames::Frames;
use anyhow::Result;
use std::alloc::Global;
use wire_parts::{put_bytes, put_u8, put_u16, put_u32, put_u64};

/// An entry with some event, seldom of a kind that there isn't.
pub fn entry(alloc: Global, frames: &Frames, draws: &mut Draws) -> Result<Vec<u8>> {
    let mut bytes = Vec::new(alloc);
    put_u64(&mut bytes, draws.number())?;
    let kind = if draws.one_in(24) {
        draws.byte()
    } else {
        1 + draws.below(8) as u8
    };
    put_u8(&mut bytes, kind)?;
    match kind {
        1 => put_taken(frames, draws, &mut bytes)?,
        3 => put_plain(draws, &mut bytes, b'o')?,
        4 => put_change(draws, &mut bytes)?,
        6 => put_cry(draws, &mut bytes)?,
        _ => {}
    }
    Ok(bytes)
}

fn put_taken(frames: &Frames, draws: &mut Draws, bytes: &mut Vec<u8>) -> Result<()> {
    put_u64(bytes, draws.number())?;
    put_u32(bytes, (draws.number() & 0xffff_ffff) as u32)?;
    let frame = frames.frame(draws)?;
    put_u32(bytes, (frame.len() as u64 & 0xffff_ffff) as u32)?;
    put_bytes(bytes, &frame)?;
    Ok(())
}

fn put_change(draws: &mut Draws, bytes: &mut Vec<u8>) -> Result<()> {
    put_u8(bytes, draws.below(6) as u8)?;
    put_u16(bytes, (draws.number() & 0xffff) as u16)?;
    put_u16(bytes, (draws.number() & 0xffff) as u16)?;
    Ok(())
}

fn put_cry(draws: &mut Draws, bytes: &mut Vec<u8>) -> Result<()> {
    let count = draws.below(40);
    put_u32(bytes, count)?;
    for _ in 0..count {
        put_u8(bytes, draws.byte())?;
    }
    Ok(())
}
