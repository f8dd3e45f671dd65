//! Small changes of bytes.
use crate::draws::Draws;
use anyhow::Result;

/// Changes the bytes at up to three places.
pub fn change(draws: &mut Draws, bytes: &mut Vec<u8>) -> Result<()> {
    let count = 1 + draws.below(3);
    for _ in 0..count {
        change_once(draws, bytes)?;
    }
    Ok(())
}

fn change_once(draws: &mut Draws, bytes: &mut Vec<u8>) -> Result<()> {
    match draws.below(8) {
        0 | 1 => flip_bit(draws, bytes),
        2 => write_number(draws, bytes),
        3 => insert_byte(draws, bytes)?,
        4 => remove_byte(draws, bytes),
        5 => cut(draws, bytes),
        6 => repeat_part(draws, bytes)?,
        _ => copy_over(draws, bytes),
    }
    Ok(())
}

fn flip_bit(draws: &mut Draws, bytes: &mut [u8]) {
    if !bytes.is_empty() {
        let place = draws.place(bytes.len());
        bytes[place] ^= 1 << draws.below(8);
    }
}

// Writes the last bytes of a number over as many that are there.
fn write_number(draws: &mut Draws, bytes: &mut [u8]) {
    if bytes.is_empty() {
        return;
    }
    let place = draws.place(bytes.len());
    let number = draws.number().to_be_bytes();
    let width = 1 + draws.place(8);
    for (byte, written) in bytes
        .iter_mut()
        .skip(place)
        .zip(number.iter().skip(8 - width))
    {
        *byte = *written;
    }
}

fn insert_byte(draws: &mut Draws, bytes: &mut Vec<u8>) -> Result<()> {
    let place = draws.place(bytes.len().saturating_add(1));
    let byte = draws.byte();
    bytes.insert(place, byte)?;
    Ok(())
}

fn remove_byte(draws: &mut Draws, bytes: &mut Vec<u8>) {
    if !bytes.is_empty() {
        let place = draws.place(bytes.len());
        let _byte = bytes.remove(place);
    }
}

fn cut(draws: &mut Draws, bytes: &mut Vec<u8>) {
    if !bytes.is_empty() {
        let place = draws.place(bytes.len());
        bytes.truncate(place);
    }
}

// Puts a part of the bytes behind them once more.
fn repeat_part(draws: &mut Draws, bytes: &mut Vec<u8>) -> Result<()> {
    if bytes.is_empty() {
        return Ok(());
    }
    let place = draws.place(bytes.len());
    let count = 1 + draws.place(64);
    let mut part = Vec::new(*bytes.allocator());
    for byte in bytes.iter().skip(place).take(count) {
        part.push(*byte)?;
    }
    bytes.extend_from_slice(&part)?;
    Ok(())
}

// Writes one byte of the text over another.
fn copy_over(draws: &mut Draws, bytes: &mut [u8]) {
    if !bytes.is_empty() {
        let from = draws.place(bytes.len());
        let to = draws.place(bytes.len());
        bytes[to] = bytes[from];
    }
}
