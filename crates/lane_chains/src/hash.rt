ghost use Rattle.std.specs.Prelude.{◌≡◌, ◌++◌};
ghost use Rattle.sha2.specs.Hashers.{Holds256};
ghost use Rattle.wire_parts.specs.Fields.{u16_bytes, u32_bytes};
ghost use Rattle.lane_chains.specs.Hash.{hash_under};

use sha2::{Digest, Sha256};

/// A hasher that has taken what each hash of RFC 8554 begins with: the key's identifier, a number
/// and a tag.
#[tactic(auto, unfolding(wire_parts::specs::Fields::u16_bytes, wire_parts::specs::Fields::u32_bytes))]
pub fn hasher_under(id: &[u8; 16], number: u32, tag: u16) -> Sha256
    ensures { Holds256 result (id.now ++ u32_bytes number ++ u16_bytes tag) }
{
    let mut hasher = Sha256::new();
    hasher.update(id);
    hasher.update(number.to_be_bytes());
    hasher.update(tag.to_be_bytes());
    hasher
}

/// The hash of two parts, one behind the other.
#[tactic(auto, unfolding(crate::specs::Hash::hash_under))]
pub fn hash_parts(id: &[u8; 16], number: u32, tag: u16, first: &[u8], second: &[u8]) -> [u8; 32]
    ensures { result ≡ hash_under id.now number tag (first.now ++ second.now) }
{
    let mut hasher = hasher_under(id, number, tag);
    hasher.update(first);
    hasher.update(second);
    hasher.finalize()
}
