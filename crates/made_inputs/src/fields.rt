//! The fields of bodies that hold no frames.
use crate::draws::Draws;
use anyhow::Result;
use wire_parts::{put_u8, put_u16, put_u32, put_u64};

/// The fields of a kind, a letter each: numbers of 32 (w) and 64 bits (q), a digest (d), an operation (o), an order (v),
/// numbers (n), rows (R), an update (U) or porequest (P), lists of poacks (a), summaries (s), commits (c), marks (m) and
/// reports (r), and certificates (C).
pub fn fields_of(kind: u16) -> &'static str {
    match kind {
        1 => "wqo",
        2 => "qU",
        3 => "wqd",
        4 => "n",
        5 => "qqs",
        6 | 7 => "qqd",
        9 | 16 => "wq",
        10 => "wqq",
        11 | 12 => "qq",
        14 => "qqmC",
        15 => "qr",
        17 => "Pa",
        19 => "qqRc",
        20 => "wqv",
        _ => "q",
    }
}

/// The field of a letter that stands for no frames.
pub fn put_plain(draws: &mut Draws, out: &mut Vec<u8>, field: u8) -> Result<()> {
    match field {
        b'w' => put_number(draws, out)?,
        b'q' => put_u64(out, draws.number())?,
        b'd' => put_digest(draws, out)?,
        b'o' => put_op(draws, out)?,
        b'v' => put_order(draws, out)?,
        b'n' => put_numbers(draws, out)?,
        _ => put_rows(draws, out)?,
    }
    Ok(())
}

fn put_number(draws: &mut Draws, out: &mut Vec<u8>) -> Result<()> {
    put_u32(out, (draws.number() & 0xffff_ffff) as u32)?;
    Ok(())
}

fn put_digest(draws: &mut Draws, out: &mut Vec<u8>) -> Result<()> {
    let byte = draws.byte();
    for _ in 0..32 {
        put_u8(out, byte)?;
    }
    Ok(())
}

// An operation by its number, seldom one that there isn't.
fn put_op(draws: &mut Draws, out: &mut Vec<u8>) -> Result<()> {
    let which = if draws.one_in(24) {
        draws.byte()
    } else {
        1 + draws.below(3) as u8
    };
    put_u8(out, which)?;
    put_number(draws, out)?;
    if which != 3 {
        put_u64(out, draws.number())?;
    }
    Ok(())
}

// A write or a notice, seldom of a kind that there isn't.
fn put_order(draws: &mut Draws, out: &mut Vec<u8>) -> Result<()> {
    let which = if draws.one_in(24) {
        draws.byte()
    } else {
        1 + draws.below(2) as u8
    };
    put_u8(out, which)?;
    if which == 1 {
        put_number(draws, out)?;
        put_u16(out, (draws.number() & 0xffff) as u16)?;
    } else {
        put_u8(out, draws.below(11) as u8)?;
        put_u64(out, draws.number())?;
        put_number(draws, out)?;
    }
    Ok(())
}

// Mostly as many numbers as the group has masters.
fn put_numbers(draws: &mut Draws, out: &mut Vec<u8>) -> Result<()> {
    let count = if draws.one_in(6) {
        draws.below(17) as u16
    } else {
        4
    };
    put_u16(out, count)?;
    for _ in 0..count {
        put_u64(out, draws.number())?;
    }
    Ok(())
}

fn put_rows(draws: &mut Draws, out: &mut Vec<u8>) -> Result<()> {
    put_u16(out, if draws.one_in(32) { 0xf1 } else { 0xf0 })?;
    let count = if draws.one_in(6) {
        draws.below(17) as u16
    } else {
        4
    };
    put_u16(out, count)?;
    for _ in 0..count {
        if draws.one_in(4) {
            put_u16(out, 0)?;
        } else {
            put_numbers(draws, out)?;
        }
    }
    Ok(())
}
