ghost use Rattle.std.specs.Prelude.{◌↔◌, IsTrue, IfOk};
ghost use Rattle.tree_keys.specs.PublicKeys.{IsTreeHeight, IsSignedUnder};
ghost use Rattle.hash_signatures.specs.Verification.{Verifies};

use crate::verification::{KeyCheck, verify_by};
use plain_lists::Want;
use std::alloc::Global;
use std::marker::Model;
use tree_keys::PublicKey;

// A signed key that verified: the key that signed, the bytes of the key below it, and their signature.
struct KnownKey {
    key: PublicKey,
    next: Vec<u8>,
    signed: Vec<u8>,
}

// Taken apart here once, so that no function proves it again.
impl Drop for KnownKey {
    fn drop(self) {
        let KnownKey {
            key: _,
            next: _,
            signed: _,
        } = self;
    }
}

impl Model for KnownKey {
    ghost use Rattle.std.specs.Prelude.{ℕ, List};
    ghost use Rattle.tree_keys.specs.declared.public_key.PublicKey.{PublicKey as LmsKey};
    ghost use Rattle.tree_keys.specs.PublicKeys.{IsSignedUnder};

    ghost Value = { LmsKey × List ℕ × List ℕ };

    ghost view = { λ known. (known.key, known.next.items, known.signed.items) };

    ghost invariant = { λ known. IsSignedUnder known.key known.next.items known.signed.items };
}

impl KnownKey {
    fn make(alloc: Global, key: &PublicKey, next: &[u8], signed: &[u8]) -> Result<KnownKey, Want>
        requires { IsSignedUnder key.now next.now signed.now }
    {
        Ok(KnownKey {
            key: *key,
            next: Vec::from_slice(alloc, next)?,
            signed: Vec::from_slice(alloc, signed)?,
        })
    }

    // Whether this is that signed key, byte for byte.
    fn is(&self, key: &PublicKey, next: &[u8], signed: &[u8]) -> bool
        ensures { IsTrue result → IsSignedUnder key.now next.now signed.now }
    {
        self.key == *key && self.next.as_slice() == next && self.signed.as_slice() == signed
    }
}

/// What is known of a signer's signed keys: of each level the last one that verified. The signatures of one lowest tree
/// all begin with the same signed keys, so each but the first of them needs only its last part verified. Where memory
/// runs out nothing is kept, and the next signature is verified whole.
pub struct KnownKeys {
    alloc: Global,
    // By how many signed keys follow it in a signature.
    kept: [Option<KnownKey>; 7],
}

// Taken apart here once, so that no crate above proves it again.
impl Drop for KnownKeys {
    fn drop(self) {
        let KnownKeys { alloc: _, kept: _ } = self;
    }
}

impl KnownKeys {
    /// Nothing is known yet.
    pub fn new(alloc: Global) -> KnownKeys {
        KnownKeys {
            alloc,
            kept: [None, None, None, None, None, None, None],
        }
    }

    /// As `verify`, whatever is known, and remembers the signed keys that verified.
    pub fn verify(&mut self, public: &[u8], message: &[u8], sig: &[u8]) -> bool
        ensures { IsTrue result ↔ Verifies public.now message.now sig.now }
    {
        verify_by(self, public, message, sig)
    }

    fn has(&self, below: usize, key: &PublicKey, next: &[u8], signed: &[u8]) -> bool
        ensures { IsTrue result → IsSignedUnder key.now next.now signed.now }
    {
        match self.kept.get(below) {
            Some(Some(known)) => known.is(key, next, signed),
            _ => false,
        }
    }

    fn keep(&mut self, below: usize, key: &PublicKey, next: &[u8], signed: &[u8])
        requires { IsSignedUnder key.now next.now signed.now }
    {
        if below < 7 {
            self.kept[below] = KnownKey::make(self.alloc, key, next, signed).ok();
        }
    }
}

impl KeyCheck for KnownKeys {
    fn signs(&mut self, below: u32, key: &PublicKey, next: &[u8], signed: &[u8]) -> bool {
        if self.has(below as usize, key, next, signed) {
            return true;
        }
        if !key.verify(next, signed) {
            return false;
        }
        self.keep(below as usize, key, next, signed);
        true
    }

    // Mostly all but the last level is known.
    fn at_once(&self) -> bool {
        false
    }
}
