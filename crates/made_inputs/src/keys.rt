//! The keys of a small group, and signatures by them.
use crate::draws::Draws;
use actor_keys::{actor_key, ring_of};
use anyhow::Result;
use checked_frames::KeyRing;
use hash_signatures::KeyState;
use quorum_sets::Sizes;
use std::alloc::Global;

/// Four masters, of which one may be intruded, and two clients.
pub const ACTORS: u32 = 6;

const SEED: [u8; 32] = [7; 32];

const CLIENTS: u32 = 2;

/// The keys of all actors, each of one level.
#[derive(Drop)]
pub struct Keys {
    alloc: Global,
    keys: Vec<KeyState>,
}

impl Keys {
    pub fn make(alloc: Global) -> Result<Keys> {
        let mut keys = Vec::new(alloc);
        for actor in 0..ACTORS {
            keys.push(key_of(alloc, actor)?)?;
        }
        Ok(Keys { alloc, keys })
    }

    /// An actor's public key in hex; none of an actor that isn't there.
    pub fn public(&self, actor: u32) -> Result<String> {
        match self.keys.get(actor as usize) {
            Some(key) => Ok(hex::encode(self.alloc, key.public())?),
            None => Ok(String::new(self.alloc)),
        }
    }

    /// A signature of the text by one of an actor's leaves. An actor that isn't there has none, so no bytes.
    pub fn sign(&self, draws: &mut Draws, actor: u32, text: &[u8]) -> Result<Vec<u8>> {
        let Some(key) = self.keys.get(actor as usize) else {
            return Ok(Vec::new(self.alloc));
        };
        let left = key.left();
        let leaf = u64::from(draws.below(32));
        if leaf >= left {
            return Ok(Vec::new(self.alloc));
        }
        Ok(key.sign_at(leaf, text)?)
    }
}

fn key_of(alloc: Global, actor: u32) -> Result<KeyState> {
    let key = actor_key(alloc, &SEED, &[5], actor)?;
    Ok(key)
}

/// The public keys of the same actors.
pub fn public_keys(alloc: Global) -> Result<KeyRing> {
    let sizes = Sizes::new(1, 0)?;
    let ring = ring_of(alloc, sizes, CLIENTS, &SEED, &[5])?;
    Ok(ring)
}
