ghost use Rattle.std.specs.Prelude.{◌≡◌};
ghost use Rattle.checked_frames.specs.Signing.{signs};

use crate::key_ring::KeyRing;
use crate::signing::{signs, signs_by};
use hash_signatures::KnownKeys;
use std::alloc::Global;

/// What is known of the signed keys of a ring's actors, from the frames that were checked with it. Whatever it is, the same
/// frames stand. It takes some 5 KB for each actor.
pub struct RingMemory {
    // By the actors' numbers.
    known: Vec<KnownKeys>,
}

// Taken apart here once, so that no crate above proves it again.
impl Drop for RingMemory {
    fn drop(self) {
        let RingMemory { known: _ } = self;
    }
}

impl RingMemory {
    /// Nothing is remembered, of no actor.
    pub fn none(alloc: Global) -> RingMemory {
        RingMemory {
            known: Vec::new(alloc),
        }
    }

    /// The signed keys that verify are remembered, of as many of the ring's actors as memory allows.
    pub fn new(alloc: Global, ring: &KeyRing) -> RingMemory {
        let mut known = Vec::new(alloc);
        for _ in 0..ring.actors() {
            if known.push(KnownKeys::new(alloc)).is_err() {
                break;
            }
        }
        RingMemory { known }
    }

    /// As `signs`, where the public key is the signer's.
    pub(crate) fn signs(&mut self, signer: u32, public: &[u8; 60], text: &[u8], sig: &[u8]) -> bool
        ensures { result ≡ signs public.now text.now sig.now }
    {
        match self.known.get_mut(signer as usize) {
            Some(known) => signs_by(known, public, text, sig),
            None => signs(public, text, sig),
        }
    }
}
