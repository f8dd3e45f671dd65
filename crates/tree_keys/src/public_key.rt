ghost use Rattle.std.specs.Prelude.{◌≡◌, ◌↔◌, ◌+◌, ◌*◌, ◌^◌, ◌<◌, ◌≤◌, ℕ, List, length, IsTrue, MatchOption};
ghost use Rattle.wire_parts.specs.Fields.{u32_bytes};
ghost use Rattle.tree_keys.specs.PublicKeys.{IsTreeHeight, tree_code, key_bytes, IsKey, tree_signature_len, signature_bytes, ClimbsToRoot, LeadsToRoot, HasParts, IsSignedUnder, TreeVerifies};

use crate::nodes::{climbed, leaf_count, leaf_hash};
use byteorder::{BigEndian, ByteOrder};
use ots_keys::{Ots, ots_candidate};

/// An LMS public key: the height of its tree, the type of its one-time keys, its identifier I and
/// the hash of its root.
#[derive(Clone, Copy, PartialEq, Eq)]
pub struct PublicKey {
    pub height: u32,
    pub ots: Ots,
    pub id: [u8; 16],
    pub root: [u8; 32],
}

/// The 32-bit number in 4 bytes.
pub fn number_of(field: &[u8]) -> u32
    requires { length field.now ≡ 4 }
    ensures { u32_bytes result ≡ field.now }
{
    BigEndian::read_u32(field)
}

// Writes the 4 bytes of a 32-bit number.
#[tactic(auto, unfolding(wire_parts::specs::Fields::u32_bytes))]
fn write_number(field: &mut [u8], number: u32)
    requires { length field.old ≡ 4 }
    ensures { field.new ≡ u32_bytes number }
{
    field.copy_from_slice(&number.to_be_bytes());
}

/// The type code of trees of a height.
pub fn code_of_height(height: u32) -> u32
    ensures { result ≡ tree_code height }
{
    4 + height / 5
}

// The height of trees of a type, if there is that type.
fn height_of_code(code: u32) -> Option<u32>
    ensures { MatchOption result ((height : ℕ) → IsTreeHeight height → tree_code height ≡ code → ⊥)
        (λ height. IsTreeHeight height × (tree_code height ≡ code)) }
{
    match code {
        5 => Some(5),
        6 => Some(10),
        7 => Some(15),
        8 => Some(20),
        9 => Some(25),
        _ => None,
    }
}

// What a signature says of its leaf: the leaf's number, its one-time signature, and the path to the root.
#[derive(Drop)]
pub(crate) struct Parts<'a> {
    pub q: u32,
    pub ots_sig: &'a [u8],
    pub path: &'a [u8],
}

impl PublicKey {
    /// The key that these bytes are, if they are one.
    pub fn read(bytes: &[u8]) -> Option<PublicKey>
        ensures { MatchOption result ((key : PublicKey) → IsKey key bytes.now → ⊥) (λ key. IsKey key bytes.now) }
    {
        if bytes.len() != 56 {
            return None;
        }
        let (code, rest) = bytes.split_at(4);
        let (ots_code, rest) = rest.split_at(4);
        let (id_bytes, root_bytes) = rest.split_at(16);
        let Some(height) = height_of_code(number_of(code)) else {
            return None;
        };
        let Some(ots) = Ots::from_type_code(number_of(ots_code)) else {
            return None;
        };
        let mut id = [0; 16];
        id.copy_from_slice(id_bytes);
        let mut root = [0; 32];
        root.copy_from_slice(root_bytes);
        Some(PublicKey {
            height,
            ots,
            id,
            root,
        })
    }

    /// The bytes of the key.
    pub fn to_bytes(&self) -> [u8; 56]
        ensures { result ≡ key_bytes self.now }
    {
        let mut bytes = [0; 56];
        let (code, rest) = bytes.split_at_mut(4);
        let (ots_code, rest) = rest.split_at_mut(4);
        let (id, root) = rest.split_at_mut(16);
        write_number(code, code_of_height(self.height));
        write_number(ots_code, self.ots.type_code());
        id.copy_from_slice(&self.id);
        root.copy_from_slice(&self.root);
        bytes
    }

    /// The bytes of a signature.
    pub fn signature_len(&self) -> usize
        ensures { result ≡ tree_signature_len self.now.height self.now.ots }
    {
        8 + self.ots.signature_len() + 32 * self.height as usize
    }

    /// Whether the bytes are a signature of the message under this key. It takes no memory.
    pub fn verify(&self, message: &[u8], sig: &[u8]) -> bool
        requires { IsTreeHeight self.now.height }
        ensures { IsTrue result ↔ IsSignedUnder self.now message.now sig.now }
    {
        match self.parts(sig) {
            None => false,
            Some(parts) => self.leads_to_root(&parts, message),
        }
    }

    // The parts of a signature under this key, unless its length, its type code or its leaf is wrong.
    pub(crate) fn parts<'a>(&self, sig: &'a [u8]) -> Option<Parts<'a>>
        requires { IsTreeHeight self.now.height }
        ensures { MatchOption result ((message : List ℕ) → IsSignedUnder self.now message sig.now → ⊥)
            (λ parts. HasParts self.now sig.now parts.q parts.ots_sig.now parts.path.now) }
    {
        if sig.len() != self.signature_len() {
            return None;
        }
        let (q_bytes, rest) = sig.split_at(4);
        let (ots_sig, rest) = rest.split_at(self.ots.signature_len());
        let (code, path) = rest.split_at(4);
        let q = number_of(q_bytes);
        if number_of(code) != code_of_height(self.height) {
            return None;
        }
        if !self.has_leaf(q) {
            return None;
        }
        Some(Parts { q, ots_sig, path })
    }

    // Whether the tree has a leaf of this number.
    fn has_leaf(&self, q: u32) -> bool
        requires { IsTreeHeight self.now.height }
        ensures { IsTrue result ↔ (q < 2 ^ self.now.height) }
    {
        q < leaf_count(self.height)
    }

    // Whether the one-time signature and the path lead from the message to the root.
    fn leads_to_root(&self, parts: &Parts<'_>, message: &[u8]) -> bool
        requires height { IsTreeHeight self.now.height }
        requires leaf { parts.now.q < 2 ^ self.now.height }
        requires levels { length parts.now.path.now ≡ 32 * self.now.height }
        ensures { IsTrue result ↔ LeadsToRoot self.now parts.now.q message.now parts.now.ots_sig.now parts.now.path.now }
    {
        match ots_candidate(self.ots, &self.id, parts.q, message, parts.ots_sig) {
            None => false,
            Some(key) => self.climbs(parts, &key),
        }
    }

    // Whether the path leads from a one-time key to the root.
    pub(crate) fn climbs(&self, parts: &Parts<'_>, key: &[u8; 32]) -> bool
        requires height { IsTreeHeight self.now.height }
        requires leaf { parts.now.q < 2 ^ self.now.height }
        requires levels { length parts.now.path.now ≡ 32 * self.now.height }
        ensures { IsTrue result ↔ ClimbsToRoot self.now parts.now.q key.now parts.now.path.now }
    {
        let r = leaf_count(self.height) + parts.q;
        let leaf = leaf_hash(&self.id, r, key);
        climbed(&self.id, parts.path, r, &leaf, self.height) == self.root
    }
}

/// Whether the bytes of a public key verify the bytes of a signature of the message. Any other bytes
/// are `false`. It takes no memory.
pub fn tree_verify(public: &[u8], message: &[u8], sig: &[u8]) -> bool
    ensures { IsTrue result ↔ TreeVerifies public.now message.now sig.now }
{
    match PublicKey::read(public) {
        None => false,
        Some(key) => key.verify(message, sig),
    }
}
