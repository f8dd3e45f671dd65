//! Entries that are written here by hand, after `docs/FORMATS.md`: what is read of them is written as they were.
use checked_frames::KeyRing;
use entry_texts::{read_entry, spell_entry};
use hash_signatures::{KeyState, Ots};
use plain_lists::Items;
use quorum_sets::Sizes;
use std::alloc::Global;
use std::test::Fail;
use wire_parts::{put_bytes, put_u32};
use world_entries::Entry;

const TICK: [u8; 9] = [0, 0, 0, 0, 0, 0, 1, 2, 2];

// The acknowledgement of alarm 5.
const COMMAND: [u8; 14] = [0, 0, 0, 0, 0, 0, 0, 0, 3, 3, 0, 0, 0, 5];

// The discrete input at place 258 becomes 1.
const FIELD: [u8; 14] = [0, 0, 0, 0, 0, 0, 0, 1, 4, 2, 1, 2, 0, 1];

const POLL: [u8; 9] = [0, 0, 0, 0, 0, 0, 0, 2, 5];

const CRY: [u8; 15] = [0, 0, 0, 0, 0, 0, 0, 3, 6, 0, 0, 0, 2, 255, 0];

const SKIP: [u8; 9] = [0, 0, 0, 0, 0, 0, 0, 4, 7];

const RESTART: [u8; 9] = [0, 0, 0, 0, 0, 0, 0, 5, 8];

// There is no kind 9.
const NO_KIND: [u8; 9] = [0, 0, 0, 0, 0, 0, 0, 5, 9];

// What stands before the length of a frame that is taken at stamp 6 and was said at stamp 3 in place 1.
const TAKES: [u8; 21] = [
    0, 0, 0, 0, 0, 0, 0, 6, 1, 0, 0, 0, 0, 0, 0, 0, 3, 0, 0, 0, 1,
];

// The text of the ping of number 7.
const PING: [u8; 10] = [0, 8, 0, 0, 0, 0, 0, 0, 0, 7];

fn put_counted(out: &mut Vec<u8>, bytes: &[u8]) -> Result<(), Fail> {
    put_u32(out, (bytes.len() % 0x1_0000_0000) as u32)?;
    put_bytes(out, bytes)?;
    Ok(())
}

// The ping's frame of master 0, with this signature.
fn ping_with(alloc: Global, sig: &[u8]) -> Result<Vec<u8>, Fail> {
    let mut frame = Vec::new(alloc);
    put_u32(&mut frame, 0)?;
    put_counted(&mut frame, &PING)?;
    put_counted(&mut frame, sig)?;
    Ok(frame)
}

// The entry that takes the ping with this signature.
fn taking(alloc: Global, sig: &[u8]) -> Result<Vec<u8>, Fail> {
    let frame = ping_with(alloc, sig)?;
    let mut entry = Vec::from_slice(alloc, &TAKES)?;
    put_counted(&mut entry, &frame)?;
    Ok(entry)
}

// The ring of four masters and one client of which only master 0 has a key.
fn ring_with(alloc: Global, public: [u8; 60]) -> Result<KeyRing, Fail> {
    let sizes = Sizes::new(1, 0)?;
    let publics = [public, [0; 60], [0; 60], [0; 60], [0; 60]];
    let ring = KeyRing::make(alloc, sizes, 1, &publics)?;
    Ok(ring)
}

// Whether an entry is read of the bytes and is written as these bytes again.
fn comes_back(alloc: Global, ring: &KeyRing, bytes: &[u8]) -> Result<bool, Fail> {
    let Some((stamp, event)) = read_entry(alloc, ring, bytes)? else {
        return Ok(false);
    };
    let entry = Entry {
        stamp,
        actor: 0,
        event,
        said: Items::new(alloc),
    };
    let text = spell_entry(alloc, &entry)?;
    Ok(text.as_slice() == bytes)
}

fn key(alloc: Global) -> Result<KeyState, Fail> {
    let key = KeyState::make(alloc, &[7; 32], &[0; 16], &[5], Ots::W4)?;
    Ok(key)
}

#[test]
fn an_entry_of_each_kind_comes_back(rt: HostRuntime) -> Result<(), Fail> {
    let mut key = key(rt.alloc())?;
    let ring = ring_with(rt.alloc(), key.public())?;
    let sig = key.sign(&PING)?;
    let took = taking(rt.alloc(), &sig)?;
    let entries: [&[u8]; 8] = [
        &TICK,
        &COMMAND,
        &FIELD,
        &POLL,
        &CRY,
        &SKIP,
        &RESTART,
        took.as_slice(),
    ];
    for bytes in entries {
        assert!(rt; comes_back(rt.alloc(), &ring, bytes)?);
    }
    Ok(())
}

#[test]
fn a_frame_that_does_not_stand_is_no_entry(rt: HostRuntime) -> Result<(), Fail> {
    let mut key = key(rt.alloc())?;
    let ring = ring_with(rt.alloc(), key.public())?;
    let mut sig = key.sign(&PING)?;
    if let Some(byte) = sig.last_mut() {
        *byte ^= 1;
    }
    let took = taking(rt.alloc(), &sig)?;
    let read = read_entry(rt.alloc(), &ring, &took)?;
    assert!(rt; read.is_none());
    Ok(())
}

#[test]
fn bytes_of_another_kind_are_no_entry(rt: HostRuntime) -> Result<(), Fail> {
    let ring = ring_with(rt.alloc(), [0; 60])?;
    let read = read_entry(rt.alloc(), &ring, &NO_KIND)?;
    assert!(rt; read.is_none());
    Ok(())
}
