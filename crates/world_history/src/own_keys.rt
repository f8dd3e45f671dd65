//! An actor's own key, and whether a ring has its public key.
ghost use Rattle.std.specs.Prelude.{◌≡◌, ◌↔◌, ◌<◌, [], length, IfOk, OnOk, IsTrue};
ghost use Rattle.std.specs.List.{slice_index_or};
ghost use Rattle.ots_keys.specs.declared.parameters.Ots.TheVariants.{W4};
ghost use Rattle.hash_signatures.specs.Signatures.{key_public};
ghost use Rattle.hash_signatures.specs.State.{key_from, key_use, IsLevelCount, HasMadeHeights};

use hash_signatures::{KeyAnswer, KeyState, Ots};
use plain_lists::Want;
use std::alloc::Global;

/// The key of these heights, the highest level first, that is made from its own seed and identifier. It signed nothing yet.
pub(crate) fn own_key(
    alloc: Global,
    seed: &[u8; 32],
    identifier: &[u8; 16],
    heights: &[u32],
) -> Result<KeyState, Want>
    requires levels { IsLevelCount (length heights.now) }
    requires heights { HasMadeHeights heights.now }
    ensures key { IfOk result (λ key. key ≡ key_use (key_from seed.now identifier.now heights.now W4) 0) }
    ensures size { OnOk result (length identifier.now ≡ 16) }
{
    match KeyState::make(alloc, seed, identifier, heights, Ots::W4) {
        Ok(key) => Ok(key),
        Err(KeyAnswer::Want) => Err(Want),
        Err(KeyAnswer::BadLevels) | Err(KeyAnswer::HeightNotMade) => unreachable!(),
    }
}

/// Whether what the ring has of the actor is the key's public key.
pub(crate) fn is_of_ring(ring: &[[u8; 60]], actor: u32, key: &KeyState) -> bool
    requires { actor < length ring.now }
    ensures { IsTrue result ↔ (slice_index_or ring.now actor [] ≡ key_public key.now.key) }
{
    let listed = &ring[actor as usize];
    *listed == key.public()
}
