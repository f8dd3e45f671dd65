//! Frames that an intruded master cries as bytes: one with a signature that is none, and one by another master's key.
use crate::calls::{Given, count_of, played, text_by};
use actor_keys::{actor_key, ring_of};
use checked_frames::{CheckRefusal, check};
use message_forms::read_frame;
use quorum_sets::Sizes;
use std::alloc::Global;
use std::sync::Wait;
use std::test::Fail;
use std::thread::Threads;
use wire_parts::{put_bytes, put_u32};

/// The scenario's keys, of which few hashes make each.
const KEYS: &str = "levels = [5]\nscreens = 1\nintruded = [3]\n";

const SEED: [u8; 32] = [0; 32];

/// The text of a summary of four masters whose first number is this one, and the others 0.
fn summary(first: u8) -> [u8; 36] {
    let mut text = [0; 36];
    text[1] = 4;
    text[3] = 4;
    text[11] = first;
    text
}

/// The frame of a master's summary, by the first leaf of its key.
fn frame_by(alloc: Global, master: u32, first: u8) -> Result<Vec<u8>, Fail> {
    frame_of(alloc, master, &summary(first))
}

/// The frame of a text, by the first leaf of its actor's key.
pub(crate) fn frame_of(alloc: Global, actor: u32, text: &[u8]) -> Result<Vec<u8>, Fail> {
    let mut key = actor_key(alloc, &SEED, &[5], actor)?;
    let sig = key.sign(text)?;
    let mut bytes = Vec::new(alloc);
    put_u32(&mut bytes, actor)?;
    put_u32(&mut bytes, number_of(text))?;
    put_bytes(&mut bytes, text)?;
    put_u32(&mut bytes, number_of(&sig))?;
    put_bytes(&mut bytes, &sig)?;
    Ok(bytes)
}

fn number_of(field: &[u8]) -> u32 {
    (field.len() % 0x1_0000_0000) as u32
}

/// The text of a play in which master 3 cries these bytes to some masters, and all is taken.
fn cried<R: Threads + Wait + Sync>(
    rt: &R,
    alloc: Global,
    masters: &str,
    bytes: &[u8],
) -> Result<String, Fail> {
    let digits = hex::encode(alloc, bytes)?;
    let mut words = String::from_str(alloc, "m3 ")?;
    words.push_str(masters)?;
    words.push_str(" raw ")?;
    words.push_str(digits.as_str())?;
    words.push_str("\n")?;
    played(rt, alloc, KEYS, "cry m3\nflow 1\n", words.as_str())
}

/// Why the frame with these bytes doesn't stand.
fn refusal_of(alloc: Global, bytes: &[u8]) -> Result<Option<CheckRefusal>, Fail> {
    let sizes = Sizes::new(1, 0)?;
    let ring = ring_of(alloc, sizes, 1, &SEED, &[5])?;
    let frame = read_frame(alloc, bytes)?;
    Ok(check(alloc, &ring, frame).err())
}

#[test]
fn a_frame_with_a_changed_signature_is_taken_by_nobody(rt: HostRuntime) -> Result<(), Fail> {
    let mut bytes = frame_by(rt.alloc(), 3, 0)?;
    if let Some(byte) = bytes.last_mut() {
        *byte ^= 1;
    }
    let refusal = refusal_of(rt.alloc(), &bytes)?;
    assert!(rt; refusal == Some(CheckRefusal::Unsigned { part: 0 }));
    let text = cried(&rt, rt.alloc(), "m0,m1,m2", &bytes)?;
    assert_eq!(rt; count_of(text.as_str(), FORGED_NONE), 1);
    assert_eq!(rt; count_of(text.as_str(), "history 1"), 1);
    Ok(())
}

const FORGED_NONE: &str = "audit forged 0 alike 0 intruded 1 limit 1";

/// Master 1 never said it, so it counts as forged, and the premise of the headline fails.
#[test]
fn a_frame_by_another_key_is_taken_and_counted(rt: HostRuntime) -> Result<(), Fail> {
    let bytes = frame_by(rt.alloc(), 1, 5)?;
    assert!(rt; refusal_of(rt.alloc(), &bytes)?.is_none());
    let text = cried(&rt, rt.alloc(), "m0", &bytes)?;
    let text = text.as_str();
    assert_eq!(rt;
        count_of(text, "audit forged 1 alike 0 intruded 1 limit 1"),
        1
    );
    assert_eq!(rt; count_of(text, "agree yes"), 1);
    assert_eq!(rt; count_of(text, "history 2"), 1);
    assert_eq!(rt; count_of(text, "1 m0 took 0.0"), 1);
    Ok(())
}

/// The line of the frame in the picture of that play: from the lane of master 3 at entry 0 to that of master 0 at entry 1.
const LINE: &str = "<line x1=\"70\" y1=\"188\" x2=\"84\" y2=\"50\" stroke=\"#2a6fb0\"/>";

#[test]
fn the_line_of_a_frame_begins_at_the_master_that_said_it(rt: HostRuntime) -> Result<(), Fail> {
    let bytes = frame_by(rt.alloc(), 1, 5)?;
    let history = cried(&rt, rt.alloc(), "m0", &bytes)?;
    let given = Given {
        keys: KEYS,
        script: "",
        words: "",
        history: history.as_str(),
    };
    let picture = text_by(&rt, rt.alloc(), "picture scenario history", given)?;
    assert_eq!(rt; count_of(picture.as_str(), LINE), 1);
    Ok(())
}
