use ots_keys::Ots;
use sha2::{Digest, Sha256};
use std::test::Fail;
use tree_keys::{PublicKey, Tree, TreeAnswer, tree_verify};

const ID: [u8; 16] = [0, 1, 2, 3, 4, 5, 6, 7, 8, 9, 10, 11, 12, 13, 14, 15];

const SEED: [u8; 32] = [
    100, 101, 102, 103, 104, 105, 106, 107, 108, 109, 110, 111, 112, 113, 114, 115, 116, 117, 118,
    119, 120, 121, 122, 123, 124, 125, 126, 127, 128, 129, 130, 131,
];

// The digests of the public key of the tree of height 5 with w = 4, and of its signature of a message
// with leaf 21, by another program, written in Python from the formulas alone.
const PUBLIC: &[u8; 32] =
    b"\x2a\x51\xef\x38\x67\x2e\x0a\x54\x84\xdd\x7e\xed\xa9\x8c\xab\xa2\x76\x89\x13\x73\xb6\x3c\x44\x98\x7a\xdd\x07\x67\x92\xa5\xce\xa8";

const SIGNATURE: &[u8; 32] =
    b"\x59\x9b\xa5\xca\x35\xbd\x09\xb6\x7d\x44\x71\x0d\x9c\xef\x62\xa6\x48\xb2\x13\xee\x5b\xbb\x29\x2e\xcd\x04\x99\x7d\x91\x25\x41\x70";

#[test]
fn a_tree_signs_and_its_public_key_verifies(rt: HostRuntime) -> Result<(), Fail> {
    let message = b"breaker 7 open";
    let tree = Tree::make(rt.alloc(), Ots::W4, 5, &ID, &SEED)?;
    let public = tree.public();
    assert_eq!(rt; Sha256::digest(public).as_slice(), PUBLIC.as_slice());
    let mut sig = tree.sign(21, message)?;
    assert_eq!(rt; Sha256::digest(&sig).as_slice(), SIGNATURE.as_slice());
    assert!(rt; tree_verify(&public, message, &sig));
    assert!(rt; !tree_verify(&public, b"breaker 7 shut", &sig));
    assert!(rt; !tree_verify(&public[1..], message, &sig));
    let key = PublicKey::read(&public).ok_or("no key")?;
    assert!(rt; key.to_bytes() == public);
    sig.push(0)?;
    assert!(rt; !tree_verify(&public, message, &sig));
    Ok(())
}

#[test]
fn other_heights_are_not_made(rt: HostRuntime) {
    for height in [0, 7, 15] {
        let refused = Tree::make(rt.alloc(), Ots::W4, height, &ID, &SEED);
        assert!(rt; matches!(refused, Err(TreeAnswer::HeightNotMade)));
    }
}
