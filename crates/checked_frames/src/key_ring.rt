ghost use Rattle.std.specs.Prelude.{◌≡◌, ◌+◌, ◌<◌, length, nat_lt, IfOk};
ghost use Rattle.protocol_rules.specs.Group.{group_of};
ghost use Rattle.protocol_rules.specs.Places.{in_place};
ghost use Rattle.checked_frames.specs.Standing.{ring_of, actors, public_of};

use crate::places::is_in_place;
use message_types::Frame;
use plain_lists::Want;
use quorum_sets::Sizes;
use std::alloc::Global;
use std::marker::Model;

/// The public keys of all actors: those of the masters of a group by their numbers, then those of its clients.
pub struct KeyRing {
    sizes: Sizes,
    clients: u32,
    publics: Vec<[u8; 60]>,
}

// Taken apart here once, so that no crate above proves it again.
impl Drop for KeyRing {
    fn drop(self) {
        let KeyRing {
            sizes: _,
            clients: _,
            publics: _,
        } = self;
    }
}

impl Model for KeyRing {
    ghost use Rattle.std.specs.Prelude.{◌≡◌, ◌+◌, length};
    ghost use Rattle.protocol_rules.specs.Group.{group_of};
    ghost use Rattle.checked_frames.specs.Standing.{Ring, ring_of};

    ghost Value = { Ring };

    ghost view = { λ ring. ring_of (group_of ring.sizes ring.clients) ring.publics.items };

    ghost invariant = { λ ring. length ring.publics.items ≡ ring.sizes.n + ring.clients };
}

impl KeyRing {
    /// The ring of a group with so many clients, from a public key for each actor. The keys are copied.
    pub fn make(
        alloc: Global,
        sizes: Sizes,
        clients: u32,
        publics: &[[u8; 60]],
    ) -> Result<KeyRing, Want>
        requires { length publics.now ≡ sizes.n + clients }
        ensures { IfOk result (λ ring. ring ≡ ring_of (group_of sizes clients) publics.now) }
    {
        Ok(KeyRing {
            sizes,
            clients,
            publics: Vec::from_slice(alloc, publics)?,
        })
    }

    /// The public key of an actor.
    pub fn public(&self, actor: u32) -> &[u8; 60]
        requires { actor < actors self.now.group }
        ensures { result.now ≡ public_of self.now actor }
    {
        &self.publics[actor as usize]
    }

    /// How many actors there are.
    pub(crate) fn actors(&self) -> usize
        ensures { result ≡ length self.now.publics }
    {
        self.publics.len()
    }

    /// Whether there is an actor of this number.
    pub(crate) fn has(&self, actor: u32) -> bool
        ensures { result ≡ nat_lt actor (actors self.now.group) }
    {
        u64::from(actor) < u64::from(self.sizes.n) + u64::from(self.clients)
    }

    /// Whether a frame is in its place in the ring's group.
    pub(crate) fn is_in_place(&self, frame: &Frame) -> bool
        ensures { result ≡ in_place self.now.group frame.now }
    {
        is_in_place(&self.sizes, self.clients, frame)
    }
}
