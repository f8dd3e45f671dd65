ghost use Rattle.std.specs.Prelude.{◌≡◌, ◌+◌, ◌<◌, ◌^◌, length, IfOk};
ghost use Rattle.protocol_rules.specs.Group.{group_of};
ghost use Rattle.hash_signatures.specs.Signatures.{key_public};
ghost use Rattle.hash_signatures.specs.State.{key_use, IsLevelCount, HasMadeHeights};
ghost use Rattle.checked_frames.specs.Standing.{ring_of as ring_with};
ghost use Rattle.actor_keys.specs.Keys.{derived, actor_seed, actor_identifier, key_of, public_keys};

use checked_frames::KeyRing;
use hash_signatures::{KeyAnswer, KeyState, Ots, public_key};
use plain_lists::Want;
use quorum_sets::Sizes;
use sha2::{Digest, Sha256};
use std::alloc::Global;

// What the hash of an actor's seed ends with, and that of its identifier.
const SEED_TAG: u8 = 0;

const IDENTIFIER_TAG: u8 = 1;

// The hash of the scenario's seed, an actor's number and a tag.
#[tactic(auto, unfolding(wire_parts::specs::Fields::u32_bytes))]
fn derived(seed: &[u8; 32], actor: u32, tag: u8) -> [u8; 32]
    ensures { result ≡ derived seed.now actor tag }
{
    let mut hasher = Sha256::new();
    hasher.update(seed);
    hasher.update(actor.to_be_bytes());
    hasher.update([tag]);
    hasher.finalize()
}

/// The seed of an actor's own key, from the scenario's seed.
#[tactic(auto, unfolding(crate::specs::Keys::actor_seed))]
pub fn actor_seed(seed: &[u8; 32], actor: u32) -> [u8; 32]
    ensures { result ≡ actor_seed seed.now actor }
{
    derived(seed, actor, SEED_TAG)
}

/// The identifier of an actor's own key, from the scenario's seed.
#[tactic(auto, unfolding(crate::specs::Keys::actor_identifier))]
pub fn actor_identifier(seed: &[u8; 32], actor: u32) -> [u8; 16]
    ensures { result ≡ actor_identifier seed.now actor }
{
    let hash = derived(seed, actor, IDENTIFIER_TAG);
    let mut id = [0; 16];
    id.copy_from_slice(&hash[..16]);
    id
}

/// The key of an actor, from the scenario's seed and its heights, the highest level first. None of its signatures is made
/// yet.
#[tactic(auto, unfolding(crate::specs::Keys::key_of))]
pub fn actor_key(
    alloc: Global,
    seed: &[u8; 32],
    heights: &[u32],
    actor: u32,
) -> Result<KeyState, Want>
    requires levels { IsLevelCount (length heights.now) }
    requires heights { HasMadeHeights heights.now }
    ensures { IfOk result (λ key. key ≡ key_use (key_of seed.now heights.now actor) 0) }
{
    let own_seed = actor_seed(seed, actor);
    let id = actor_identifier(seed, actor);
    match KeyState::make(alloc, &own_seed, &id, heights, Ots::W4) {
        Ok(key) => Ok(key),
        Err(KeyAnswer::Want) => Err(Want),
        Err(KeyAnswer::BadLevels) | Err(KeyAnswer::HeightNotMade) => unreachable!(),
    }
}

// The public key of an actor's key.
#[tactic(auto, unfolding(crate::specs::Keys::key_of))]
fn actor_public(
    alloc: Global,
    seed: &[u8; 32],
    heights: &[u32],
    actor: u32,
) -> Result<[u8; 60], Want>
    requires levels { IsLevelCount (length heights.now) }
    requires heights { HasMadeHeights heights.now }
    ensures { IfOk result (λ public. public ≡ key_public (key_of seed.now heights.now actor)) }
{
    let own_seed = actor_seed(seed, actor);
    let id = actor_identifier(seed, actor);
    Ok(public_key(alloc, &own_seed, &id, heights, Ots::W4)?)
}

// The public keys of so many actors, by their numbers.
fn publics_of(
    alloc: Global,
    actors: u32,
    seed: &[u8; 32],
    heights: &[u32],
) -> Result<Vec<[u8; 60]>, Want>
    requires levels { IsLevelCount (length heights.now) }
    requires heights { HasMadeHeights heights.now }
    ensures { IfOk result (λ publics. publics.items ≡ public_keys seed.now heights.now actors) }
{
    let mut publics = Vec::with_capacity(alloc, actors as usize)?;
    for actor in 0..actors {
        let public = actor_public(alloc, seed, heights, actor)?;
        publics.push(public)?;
    }
    Ok(publics)
}

/// The ring of a group with so many clients: the public key of each actor's key, the masters first.
pub fn ring_of(
    alloc: Global,
    sizes: Sizes,
    clients: u32,
    seed: &[u8; 32],
    heights: &[u32],
) -> Result<KeyRing, Want>
    requires few { sizes.n + clients < 2 ^ 32 }
    requires levels { IsLevelCount (length heights.now) }
    requires heights { HasMadeHeights heights.now }
    ensures { IfOk result (λ ring. ring ≡ ring_with (group_of sizes clients) (public_keys seed.now heights.now (sizes.n + clients))) }
{
    let publics = publics_of(alloc, sizes.n + clients, seed, heights)?;
    KeyRing::make(alloc, sizes, clients, &publics)
}
