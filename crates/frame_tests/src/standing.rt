use crate::bytes::{PLAIN, SUMMARY, framed, offered};
use checked_frames::{CheckRefusal, KeyRing, RingMemory, check_with, parts};
use hash_signatures::{KeyState, Ots};
use message_forms::read_frame;
use message_types::Body;
use quorum_sets::Sizes;
use std::alloc::Global;
use std::test::Fail;

fn key_of(alloc: Global, actor: u8) -> Result<KeyState, Fail> {
    let key = KeyState::make(alloc, &[actor; 32], &[actor; 16], &[5, 5], Ots::W4)?;
    Ok(key)
}

fn public_of(alloc: Global, actor: u8) -> Result<[u8; 60], Fail> {
    let key = key_of(alloc, actor)?;
    Ok(key.public())
}

// The ring of four masters with these keys and one client.
fn ring_of(alloc: Global, publics: &[[u8; 60]; 5]) -> Result<KeyRing, Fail> {
    let sizes = Sizes::new(1, 0)?;
    let ring = KeyRing::make(alloc, sizes, 1, publics)?;
    Ok(ring)
}

fn real_ring(alloc: Global) -> Result<KeyRing, Fail> {
    let publics = [
        public_of(alloc, 0)?,
        public_of(alloc, 1)?,
        public_of(alloc, 2)?,
        public_of(alloc, 3)?,
        [0; 60],
    ];
    ring_of(alloc, &publics)
}

// A body's frame by the key of a master.
fn by(alloc: Global, master: u8, body: &[u8]) -> Result<Vec<u8>, Fail> {
    let sig = signature_by(alloc, master, body)?;
    framed(alloc, u32::from(master), body, &sig)
}

// The text of a preprepare with summaries of masters 1, 2 and 3, of which this is the second one's frame.
fn offer_with(alloc: Global, second: &[u8]) -> Result<Vec<u8>, Fail> {
    let first = by(alloc, 1, &SUMMARY)?;
    let third = by(alloc, 3, &SUMMARY)?;
    offered(alloc, &first, second, &third)
}

// The summary of master 2 with a bit of its signature changed.
fn changed_summary(alloc: Global) -> Result<Vec<u8>, Fail> {
    let mut summary = by(alloc, 2, &SUMMARY)?;
    if let Some(byte) = summary.last_mut() {
        *byte ^= 1;
    }
    Ok(summary)
}

// Why the frame with these bytes is refused, when it is checked once more.
fn refusal_of(alloc: Global, ring: &KeyRing, bytes: &[u8]) -> Result<Option<CheckRefusal>, Fail> {
    let mut memory = RingMemory::new(alloc, ring);
    let first = read_frame(alloc, bytes)?;
    let _refusal = check_with(alloc, ring, &mut memory, first).err();
    let frame = read_frame(alloc, bytes)?;
    Ok(check_with(alloc, ring, &mut memory, frame).err())
}

fn signers_of(alloc: Global, parts: &[(u32, Body)]) -> Result<Vec<u32>, Fail> {
    let mut signers = Vec::new(alloc);
    for (signer, _) in parts {
        signers.push(*signer)?;
    }
    Ok(signers)
}

// The signers of the parts of the frame with these bytes, where it stands.
fn standing_signers(alloc: Global, ring: &KeyRing, bytes: &[u8]) -> Result<Vec<u32>, Fail> {
    let frame = read_frame(alloc, bytes)?;
    let mut memory = RingMemory::new(alloc, ring);
    let checked = check_with(alloc, ring, &mut memory, frame)?;
    let list = parts(alloc, &checked)?;
    signers_of(alloc, &list)
}

#[test]
fn a_plain_frame_is_unsigned(rt: HostRuntime) -> Result<(), Fail> {
    let ring = ring_of(rt.alloc(), &[[7; 60]; 5])?;
    let refusal = refusal_of(rt.alloc(), &ring, &PLAIN)?;
    assert!(rt; refusal == Some(CheckRefusal::Unsigned { part: 0 }));
    Ok(())
}

#[test]
fn a_signer_outside_the_ring_is_unknown(rt: HostRuntime) -> Result<(), Fail> {
    let ring = ring_of(rt.alloc(), &[[7; 60]; 5])?;
    let mut other = PLAIN;
    other[3] = 5;
    let refusal = refusal_of(rt.alloc(), &ring, &other)?;
    assert!(rt; refusal == Some(CheckRefusal::SignerUnknown { signer: 5 }));
    Ok(())
}

// The preprepare of a master with the summary of master 2 as it was signed.
fn preprepare_by(alloc: Global, master: u8) -> Result<Vec<u8>, Fail> {
    let second = by(alloc, 2, &SUMMARY)?;
    let text = offer_with(alloc, &second)?;
    by(alloc, master, &text)
}

#[test]
fn a_signed_preprepare_stands(rt: HostRuntime) -> Result<(), Fail> {
    let ring = real_ring(rt.alloc())?;
    let bytes = preprepare_by(rt.alloc(), 0)?;
    let signers = standing_signers(rt.alloc(), &ring, &bytes)?;
    assert!(rt; signers.as_slice() == [0, 1, 2, 3].as_slice());
    Ok(())
}

// Signed by master 1, who doesn't lead view 0.
#[test]
fn a_preprepare_of_another_master_is_misplaced(rt: HostRuntime) -> Result<(), Fail> {
    let ring = real_ring(rt.alloc())?;
    let bytes = preprepare_by(rt.alloc(), 1)?;
    let refusal = refusal_of(rt.alloc(), &ring, &bytes)?;
    assert!(rt; refusal == Some(CheckRefusal::Misplaced { part: 0 }));
    Ok(())
}

// The leader's frame over a summary of which a bit was changed before.
fn changed_before(alloc: Global) -> Result<Vec<u8>, Fail> {
    let second = changed_summary(alloc)?;
    let text = offer_with(alloc, &second)?;
    by(alloc, 0, &text)
}

#[test]
fn a_bit_changed_before_the_leader_signed_is_found_inside(rt: HostRuntime) -> Result<(), Fail> {
    let ring = real_ring(rt.alloc())?;
    let bytes = changed_before(rt.alloc())?;
    let refusal = refusal_of(rt.alloc(), &ring, &bytes)?;
    assert!(rt; refusal == Some(CheckRefusal::Unsigned { part: 2 }));
    Ok(())
}

// The signature of a master's next leaf.
fn signature_by(alloc: Global, master: u8, text: &[u8]) -> Result<Vec<u8>, Fail> {
    let mut key = key_of(alloc, master)?;
    let sig = key.sign(text)?;
    Ok(sig)
}

// The leader's signature, over a frame whose second summary was changed afterwards.
fn changed_afterwards(alloc: Global) -> Result<Vec<u8>, Fail> {
    let second = by(alloc, 2, &SUMMARY)?;
    let text = offer_with(alloc, &second)?;
    let sig = signature_by(alloc, 0, &text)?;
    let changed = offer_with(alloc, &changed_summary(alloc)?)?;
    framed(alloc, 0, &changed, &sig)
}

#[test]
fn a_bit_changed_after_the_leader_signed_is_found_outside(rt: HostRuntime) -> Result<(), Fail> {
    let ring = real_ring(rt.alloc())?;
    let bytes = changed_afterwards(rt.alloc())?;
    let refusal = refusal_of(rt.alloc(), &ring, &bytes)?;
    assert!(rt; refusal == Some(CheckRefusal::Unsigned { part: 0 }));
    Ok(())
}
