//! HSS signatures, made and verified as often as is asked.
use anyhow::{Context, Result, ensure};
use hash_signatures::{KeyCheck, KeyState, Ots, verify, verify_by};
use std::alloc::Global;
use std::fs;
use std::rt::Files;

fn new_key(alloc: Global) -> Result<KeyState> {
    let key = KeyState::make(alloc, &[7; 32], &[9; 16], &[5, 5, 5], Ots::W4)?;
    Ok(key)
}

// Makes keys, and gives how many signatures they have in all.
pub fn make_many(alloc: Global, count: u64) -> Result<u64> {
    let mut left: u64 = 0;
    for _ in 0..count {
        left = left.wrapping_add(new_key(alloc)?.left());
    }
    Ok(left)
}

// Signs messages in order, and gives how many bytes their signatures have.
pub fn sign_many(alloc: Global, count: u64) -> Result<u64> {
    let mut key = new_key(alloc)?;
    let mut bytes: u64 = 0;
    for number in 0..count {
        let sig = key.sign(&number.to_be_bytes())?;
        bytes = bytes.wrapping_add(sig.len() as u64);
    }
    Ok(bytes)
}

// Verifies one signature as often as `count` says, and gives how often it verified.
pub fn check_many<C: KeyCheck>(alloc: Global, check: &mut C, count: u64) -> Result<u64> {
    let mut key = new_key(alloc)?;
    let public = key.public();
    let sig = key.sign(b"trip breaker 4")?;
    let mut verified: u64 = 0;
    for _ in 0..count {
        if verify_by(check, &public, b"trip breaker 4", &sig) {
            verified = verified.wrapping_add(1);
        }
    }
    Ok(verified)
}

// Whether the signature of a line verifies.
fn line_verifies(alloc: Global, line: &str) -> Result<bool> {
    let mut words = line.split(' ');
    let public = hex::decode(alloc, words.next().context("a public key")?)?;
    let message = hex::decode(alloc, words.next().context("a message")?)?;
    let sig = hex::decode(alloc, words.next().context("a signature")?)?;
    Ok(verify(&public, &message, &sig))
}

pub fn verify_file<R: Files + AllocGlobal + Print>(rt: &R, name: &str) -> Result<()> {
    let text = fs::read_to_string(rt, name)?;
    for line in text.lines() {
        let answer = if line_verifies(rt.alloc(), line)? {
            "verified"
        } else {
            "refused"
        };
        rt.println(answer)?;
    }
    Ok(())
}

// Prints a line with the second signature of a new key.
pub fn give<R: AllocGlobal + Print>(rt: &R, ots: Ots, levels: usize) -> Result<()> {
    let alloc = rt.alloc();
    ensure!(levels <= 6, "no key has {levels} levels");
    let heights = [5; 6];
    let mut key = KeyState::resume(alloc, &[7; 32], &[9; 16], &heights[..levels], ots, 1)?;
    let message = b"close breaker 2";
    let public = hex::encode(alloc, key.public())?;
    let sig = key.sign(message)?;
    let sig_text = hex::encode(alloc, &sig)?;
    let message_text = hex::encode(alloc, message)?;
    println!(rt; "{public} {message_text} {sig_text}")?;
    Ok(())
}
