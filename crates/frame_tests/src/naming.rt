//! A master that prepares two different orders under one number.
use blame_check::Blame;
use checked_frames::{Checked, KeyRing, check};
use hash_signatures::{KeyState, Ots};
use message_forms::read_frame;
use quorum_sets::Sizes;
use std::alloc::Global;
use std::test::Fail;
use wire_parts::{put_bytes, put_u32};

// The text of a prepare of view 0 and number 1, with this digest.
fn prepare_text(alloc: Global, digest: u8) -> Result<Vec<u8>, Fail> {
    let mut text = Vec::new(alloc);
    put_bytes(&mut text, &[0, 6, 0, 0, 0, 0, 0, 0, 0, 0])?;
    put_bytes(&mut text, &[0, 0, 0, 0, 0, 0, 0, 1])?;
    put_bytes(&mut text, &[digest; 32])?;
    Ok(text)
}

fn put_counted(out: &mut Vec<u8>, bytes: &[u8]) -> Result<(), Fail> {
    put_u32(out, (bytes.len() % 0x1_0000_0000) as u32)?;
    put_bytes(out, bytes)?;
    Ok(())
}

// Its frame by master 0, whose key signs it.
fn prepare_by(alloc: Global, key: &mut KeyState, digest: u8) -> Result<Vec<u8>, Fail> {
    let text = prepare_text(alloc, digest)?;
    let sig = key.sign(&text)?;
    let mut frame = Vec::new(alloc);
    put_u32(&mut frame, 0)?;
    put_counted(&mut frame, &text)?;
    put_counted(&mut frame, &sig)?;
    Ok(frame)
}

fn standing(alloc: Global, ring: &KeyRing, bytes: &[u8]) -> Result<Checked, Fail> {
    let frame = read_frame(alloc, bytes)?;
    let checked = check(alloc, ring, frame)?;
    Ok(checked)
}

// The ring of four masters and one client of which only master 0 has a key.
fn ring_with(alloc: Global, public: [u8; 60]) -> Result<KeyRing, Fail> {
    let sizes = Sizes::new(1, 0)?;
    let publics = [public, [0; 60], [0; 60], [0; 60], [0; 60]];
    let ring = KeyRing::make(alloc, sizes, 1, &publics)?;
    Ok(ring)
}

// How many masters are named once this one took a prepare of master 0 with that digest.
fn named_after(
    alloc: Global,
    blame: &mut Blame,
    ring: &KeyRing,
    key: &mut KeyState,
    digest: u8,
) -> Result<usize, Fail> {
    let bytes = prepare_by(alloc, key, digest)?;
    let frame = standing(alloc, ring, &bytes)?;
    blame.take(alloc, &frame)?;
    Ok(blame.named().len())
}

#[test]
fn a_master_of_two_prepares_is_named(rt: HostRuntime) -> Result<(), Fail> {
    let mut key = KeyState::make(rt.alloc(), &[7; 32], &[0; 16], &[5], Ots::W4)?;
    let ring = ring_with(rt.alloc(), key.public())?;
    let mut blame = Blame::make(rt.alloc(), Sizes::new(1, 0)?);
    for (digest, named) in [(1, 0), (2, 1)] {
        assert_eq!(rt;
            named_after(rt.alloc(), &mut blame, &ring, &mut key, digest)?,
            named
        );
    }
    assert!(rt; blame.has(0));
    assert!(rt; !blame.has(1));
    Ok(())
}
