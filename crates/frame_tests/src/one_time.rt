use ots_keys::{Ots, ots_candidate, ots_public, ots_sign};
use sha2::{Digest, Sha256};
use std::test::Fail;

const ID: [u8; 16] = [0, 1, 2, 3, 4, 5, 6, 7, 8, 9, 10, 11, 12, 13, 14, 15];

const SEED: [u8; 32] = [
    100, 101, 102, 103, 104, 105, 106, 107, 108, 109, 110, 111, 112, 113, 114, 115, 116, 117, 118,
    119, 120, 121, 122, 123, 124, 125, 126, 127, 128, 129, 130, 131,
];

// A parameter set, the public key of leaf 5 and the digest of its signature of a message. The values
// are those of another program, written in Python from the formulas alone.
const KEYS: [(Ots, &[u8; 32], &[u8; 32]); 4] = [
    (
        Ots::W1,
        b"\x4e\x57\xe3\x64\x06\x44\x1d\x9b\x61\x1f\xad\x45\x6a\xb2\xd4\x89\x04\x6a\x63\xe5\xbc\x82\x23\xff\x81\x4f\x97\x9b\x61\x3c\xff\x93",
        b"\x19\xab\x1c\xd4\xca\x31\xf2\x72\x97\x2d\xe6\x13\x8c\xfa\xca\x54\xb3\x00\xc2\x50\x0b\x71\x4f\x5c\x93\x5e\x60\x61\x1a\xa3\x3c\xc6",
    ),
    (
        Ots::W2,
        b"\x1c\x89\x9f\x4d\x3a\xfc\x4a\x2f\x7e\xfd\xca\x8b\x17\x6c\x94\xc4\x07\x41\xf6\xf9\x50\x11\xb5\xb8\xc6\x34\xc4\xd0\x00\xaf\x36\x73",
        b"\x27\xee\x4e\x5e\xec\xa3\x3f\xa1\xe1\xd0\xfc\x6a\x2d\x1e\x75\x65\x10\x62\x02\x45\x8d\x49\x4f\x71\xd6\x40\x66\xd4\xab\x9d\xb7\x45",
    ),
    (
        Ots::W4,
        b"\xfe\x8f\x3d\x1f\xa5\x67\x04\xa6\x5f\xe2\x41\x95\x0b\xda\x54\xd8\x1f\x2c\xf2\xfc\xc5\x0c\xbc\xec\xac\xff\xee\xea\x56\x3c\xf1\x04",
        b"\x9f\x61\x01\x9e\x67\x8c\x1d\x9b\x70\x56\xb8\xb1\xa2\xe0\xdc\x3c\xb5\x76\x39\xeb\x7b\xeb\xe7\x8d\x2a\xfa\xe7\x85\x8d\x2b\x16\x5a",
    ),
    (
        Ots::W8,
        b"\xbb\x88\x9a\x2f\xf0\xa9\xcb\xe4\x7c\xe7\x81\x74\xb6\x1f\x6f\xc1\x0b\x0f\x52\xf0\x79\x2b\xdf\xe3\x5e\x09\x11\x15\xa2\x65\x61\x57",
        b"\xdd\xce\x90\xe5\x68\x78\x6f\x3c\x5c\x3f\x62\x70\x9a\xdd\x5d\x98\xa3\x6f\xe1\x1b\xd6\xde\xd3\x18\x2e\x1e\x78\xb2\x52\x5a\x45\x5a",
    ),
];

#[test]
fn keys_and_signatures_are_the_formulas(rt: HostRuntime) -> Result<(), Fail> {
    let message = b"breaker 7 open";
    for (ots, public, digest) in KEYS {
        assert_eq!(rt;
            ots_public(ots, &ID, 5, &SEED).as_slice(),
            public.as_slice()
        );
        let sig = ots_sign(rt.alloc(), ots, &ID, 5, &SEED, message)?;
        assert_eq!(rt; Sha256::digest(&sig).as_slice(), digest.as_slice());
        let candidate = ots_candidate(ots, &ID, 5, message, &sig).ok_or("no form")?;
        assert_eq!(rt; candidate.as_slice(), public.as_slice());
        assert!(rt; ots_candidate(ots, &ID, 5, message, &sig[1..]).is_none());
        assert!(rt; ots_candidate(Ots::W1, &ID, 5, message, &sig).is_some() == (ots == Ots::W1));
        assert!(rt; Ots::from_type_code(ots.type_code()) == Some(ots));
    }
    assert!(rt; Ots::from_type_code(0).is_none());
    Ok(())
}
