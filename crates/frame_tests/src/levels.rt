use hash_signatures::{KeyAnswer, KeyState, KnownKeys, Ots, SignAnswer, verify};
use std::test::Fail;

const SEED: [u8; 32] = [7; 32];

const ID: [u8; 16] = [9; 16];

// The worked example of the sizes: 4,756 bytes with two levels of height 5 and w = 4, and the 33rd
// signature, under a new lower tree, verifies under the same public key.
#[test]
fn two_levels_sign_on_under_a_new_lower_tree(rt: HostRuntime) -> Result<(), Fail> {
    let mut key = KeyState::resume(rt.alloc(), &SEED, &ID, &[5, 5], Ots::W4, 31)?;
    let public = key.public();
    let other = KeyState::make(rt.alloc(), &SEED, &ID, &[5, 5], Ots::W4)?;
    assert!(rt; other.public() == public);
    for number in 31..33u64 {
        let mut sig = key.sign(b"trip breaker 4")?;
        assert_eq!(rt; sig.len(), 4756);
        assert!(rt; verify(&public, b"trip breaker 4", &sig));
        assert!(rt; other.sign_at(number, b"trip breaker 4")?.as_slice() == sig.as_slice());
        sig[11] = 2;
        assert!(rt;
            !verify(&public, b"trip breaker 4", &sig),
            "another LM-OTS type code"
        );
        sig[11] = 3;
        sig.push(0)?;
        assert!(rt;
            !verify(&public, b"trip breaker 4", &sig),
            "a byte after the end"
        );
    }
    assert_eq!(rt; key.left(), 1024 - 33);
    Ok(())
}

// A known signed key verifies again, and no other in its place; the 33rd signature has a new lower tree.
#[test]
fn known_keys_change_no_answer(rt: HostRuntime) -> Result<(), Fail> {
    let mut key = KeyState::resume(rt.alloc(), &SEED, &ID, &[5, 5], Ots::W4, 31)?;
    let public = key.public();
    let mut known = KnownKeys::new(rt.alloc());
    for _ in 0..2 {
        let mut sig = key.sign(b"trip breaker 4")?;
        assert!(rt; known.verify(&public, b"trip breaker 4", &sig));
        assert!(rt; known.verify(&public, b"trip breaker 4", &sig));
        assert!(rt; !known.verify(&public, b"trip breaker 5", &sig));
        if let Some(byte) = sig.get_mut(100) {
            *byte ^= 1;
        }
        assert!(rt; !known.verify(&public, b"trip breaker 4", &sig));
    }
    Ok(())
}

// Three levels of height 5 and w = 4 make 7,160 bytes; a signature that counts eight signed keys is none.
#[test]
fn three_levels_sign_and_nine_are_not_verified(rt: HostRuntime) -> Result<(), Fail> {
    let mut key = KeyState::make(rt.alloc(), &SEED, &ID, &[5, 5, 5], Ots::W4)?;
    let public = key.public();
    let mut sig = key.sign(b"open breaker 4")?;
    assert_eq!(rt; sig.len(), 7160);
    assert!(rt; verify(&public, b"open breaker 4", &sig));
    sig[3] = 8;
    assert!(rt; !verify(&public, b"open breaker 4", &sig));
    Ok(())
}

#[test]
fn one_level_is_spent_after_its_leaves(rt: HostRuntime) -> Result<(), Fail> {
    let mut key = KeyState::resume(rt.alloc(), &SEED, &ID, &[5], Ots::W4, 31)?;
    assert!(rt; key.sign(b"last").is_ok());
    assert_eq!(rt; key.left(), 0);
    assert!(rt; matches!(key.sign(b"one more"), Err(SignAnswer::Spent)));
    let mut spent = KeyState::resume(rt.alloc(), &SEED, &ID, &[5], Ots::W4, 32)?;
    assert!(rt; matches!(spent.sign(b"none"), Err(SignAnswer::Spent)));
    assert!(rt; spent.public() == key.public());
    Ok(())
}

#[test]
fn levels_are_judged_before_heights(rt: HostRuntime) {
    let none = KeyState::make(rt.alloc(), &SEED, &ID, &[], Ots::W4);
    assert!(rt; matches!(none, Err(KeyAnswer::BadLevels)));
    let seven = KeyState::make(rt.alloc(), &SEED, &ID, &[7; 7], Ots::W4);
    assert!(rt; matches!(seven, Err(KeyAnswer::BadLevels)));
    let other = KeyState::make(rt.alloc(), &SEED, &ID, &[5, 7], Ots::W4);
    assert!(rt; matches!(other, Err(KeyAnswer::HeightNotMade)));
}
