//! Modbus messages from the grammar of V1.1b3, with wrong sizes and headers among them.
use crate::draws::Draws;
use anyhow::Result;
use std::alloc::Global;
use wire_parts::{put_bytes, put_u8, put_u16};

/// A request.
pub fn request(alloc: Global, draws: &mut Draws) -> Result<Vec<u8>> {
    let mut pdu = Vec::new(alloc);
    let function = function(draws);
    put_u8(&mut pdu, function)?;
    match function {
        1..=6 => put_pair(draws, &mut pdu)?,
        15 | 16 => {
            put_pair(draws, &mut pdu)?;
            put_counted(draws, &mut pdu)?;
        }
        _ => put_some(draws, &mut pdu)?,
    }
    in_header(alloc, draws, &pdu)
}

/// A reply.
pub fn reply(alloc: Global, draws: &mut Draws) -> Result<Vec<u8>> {
    let mut pdu = Vec::new(alloc);
    let function = function(draws);
    if draws.one_in(6) {
        put_u8(&mut pdu, function | 0x80)?;
        put_u8(&mut pdu, (draws.below(16)) as u8)?;
        return in_header(alloc, draws, &pdu);
    }
    put_u8(&mut pdu, function)?;
    match function {
        1..=4 => put_counted(draws, &mut pdu)?,
        5 | 6 | 15 | 16 => put_pair(draws, &mut pdu)?,
        _ => put_some(draws, &mut pdu)?,
    }
    in_header(alloc, draws, &pdu)
}

const FUNCTIONS: [u8; 8] = [1, 2, 3, 4, 5, 6, 15, 16];

fn function(draws: &mut Draws) -> u8 {
    if draws.one_in(10) {
        draws.byte()
    } else {
        FUNCTIONS[draws.place(FUNCTIONS.len())]
    }
}

fn put_pair(draws: &mut Draws, pdu: &mut Vec<u8>) -> Result<()> {
    put_u16(pdu, (draws.number() & 0xffff) as u16)?;
    put_u16(pdu, (draws.number() & 0xffff) as u16)?;
    Ok(())
}

// A count in a byte, and so many bytes behind it; seldom another number of them.
fn put_counted(draws: &mut Draws, pdu: &mut Vec<u8>) -> Result<()> {
    let count = draws.below(20) as u8;
    put_u8(pdu, count)?;
    let there = if draws.one_in(12) {
        draws.byte()
    } else {
        count
    };
    for _ in 0..there {
        put_u8(pdu, draws.byte())?;
    }
    Ok(())
}

fn put_some(draws: &mut Draws, pdu: &mut Vec<u8>) -> Result<()> {
    for _ in 0..draws.below(6) {
        put_u8(pdu, draws.byte())?;
    }
    Ok(())
}

// The message behind its header: transaction, protocol, length and unit.
fn in_header(alloc: Global, draws: &mut Draws, pdu: &[u8]) -> Result<Vec<u8>> {
    let mut bytes = Vec::new(alloc);
    put_u16(&mut bytes, (draws.number() & 0xffff) as u16)?;
    put_u16(&mut bytes, if draws.one_in(20) { 1 } else { 0 })?;
    let length = if draws.one_in(20) {
        draws.number()
    } else {
        pdu.len() as u64 + 1
    };
    put_u16(&mut bytes, (length & 0xffff) as u16)?;
    put_u8(&mut bytes, draws.byte())?;
    put_bytes(&mut bytes, pdu)?;
    Ok(bytes)
}
