ghost use Rattle.std.specs.Prelude.{◌≡◌, ◌↔◌, ◌+◌, ◌-◌, ◌^◌, ◌<◌, ◌≤◌, ◌++◌, length, map, IsTrue, IfOk, OnOk, OnErr, IsErrOf};
ghost use Rattle.hash_signatures.specs.Verification.{Verifies};
ghost use Rattle.hash_signatures.specs.Signatures.{total, all_leaves, key_public, signature_at, signed_behind, longest_signature};
ghost use Rattle.hash_signatures.specs.Path.{IsKeptPath};
ghost use Rattle.hash_signatures.specs.State.{key_from, key_use, IsLevelCount, HasMadeHeights};

use crate::descent::{total, tree_for};
use crate::path::{Path, hss_public, turned, way_at};
use ots_keys::Ots;
use plain_lists::Bytes;
use std::alloc::Global;
use std::marker::Model;
use thiserror::Error;
use tree_keys::Tree;
use wire_parts::{Want, put_bytes};

/// Why a key isn't made.
#[derive(Clone, Copy, Debug, PartialEq, Eq, Error)]
pub enum KeyAnswer {
    #[error("a key has one to six levels")]
    BadLevels,
    #[error("trees are made with height 5 or 10")]
    HeightNotMade,
    #[error("want of memory")]
    Want,
}

impl From<Want> for KeyAnswer {
    ghost use Rattle.std.specs.Prelude.{◌≡◌};
    ghost use Rattle.hash_signatures.specs.declared.key_state.KeyAnswer.TheVariants.{Want as WantAnswer};

    ghost from_gives = { λ _ answer. answer ≡ WantAnswer };

    fn from(_want: Want) -> KeyAnswer {
        KeyAnswer::Want
    }
}

/// Why nothing is signed.
#[derive(Clone, Copy, Debug, PartialEq, Eq, Error)]
pub enum SignAnswer {
    #[error("all signatures of the key are used")]
    Spent,
    #[error("want of memory")]
    Want,
}

impl From<Want> for SignAnswer {
    ghost use Rattle.std.specs.Prelude.{◌≡◌};
    ghost use Rattle.hash_signatures.specs.declared.key_state.SignAnswer.TheVariants.{Want as WantAnswer};

    ghost from_gives = { λ _ answer. answer ≡ WantAnswer };

    fn from(_want: Want) -> SignAnswer {
        SignAnswer::Want
    }
}

/// A key that signs in order, each signature with the next leaf. It keeps the trees on the way to the
/// present leaf, so that a lower tree is made only when the leaf above moves.
pub struct KeyState {
    seed: [u8; 32],
    id: [u8; 16],
    heights: Vec<u32>,
    ots: Ots,
    used: u64,
    public: [u8; 60],
    path: Option<Path>,
    alloc: Global,
}

// Taken apart here once, so that no crate above proves it again.
impl Drop for KeyState {
    fn drop(self) {
        let KeyState {
            seed: _,
            id: _,
            heights: _,
            ots: _,
            used: _,
            public: _,
            path: _,
            alloc: _,
        } = self;
    }
}

impl Model for KeyState {
    ghost use Rattle.hash_signatures.specs.State.{KeyUse};

    ghost Value = { KeyUse };

    ghost use Rattle.hash_signatures.specs.KeyInside.{use_of, IsKept};

    ghost view = { use_of };

    ghost invariant = { IsKept };
}

impl KeyState {
    /// A key from a seed, under the identifier `id`, with a level of trees for each height, the
    /// highest level first.
    pub fn make(
        alloc: Global,
        seed: &[u8; 32],
        id: &[u8; 16],
        heights: &[u32],
        ots: Ots,
    ) -> Result<KeyState, KeyAnswer>
        ensures made { IfOk result (λ state. state ≡ key_use (key_from seed.now id.now heights.now ots) 0) }
        ensures levels { OnOk result (IsLevelCount (length heights.now)) }
        ensures heights { OnOk result (HasMadeHeights heights.now) }
        ensures bad_levels { IsErrOf result KeyAnswer.BadLevels ↔ (IsLevelCount (length heights.now) → ⊥) }
        ensures not_made { IsErrOf result KeyAnswer.HeightNotMade
            ↔ (IsLevelCount (length heights.now) × (HasMadeHeights heights.now → ⊥)) }
    {
        KeyState::resume(alloc, seed, id, heights, ots, 0)
    }

    /// The same key after it made `used` signatures.
    pub fn resume(
        alloc: Global,
        seed: &[u8; 32],
        id: &[u8; 16],
        heights: &[u32],
        ots: Ots,
        used: u64,
    ) -> Result<KeyState, KeyAnswer>
        requires { used ≤ 2 ^ total heights.now }
        ensures made { IfOk result (λ state. state ≡ key_use (key_from seed.now id.now heights.now ots) used) }
        ensures levels { OnOk result (IsLevelCount (length heights.now)) }
        ensures heights { OnOk result (HasMadeHeights heights.now) }
        ensures bad_levels { IsErrOf result KeyAnswer.BadLevels ↔ (IsLevelCount (length heights.now) → ⊥) }
        ensures not_made { IsErrOf result KeyAnswer.HeightNotMade
            ↔ (IsLevelCount (length heights.now) × (HasMadeHeights heights.now → ⊥)) }
    {
        if heights.is_empty() || heights.len() > 6 {
            return Err(KeyAnswer::BadLevels);
        }
        if !heights_are_made(heights) {
            return Err(KeyAnswer::HeightNotMade);
        }
        Ok(resumed(alloc, seed, id, heights, ots, used)?)
    }

    /// How many signatures are left.
    pub fn left(&self) -> u64
        ensures left { result ≡ all_leaves self.now.key - self.now.used }
        ensures within { self.now.used ≤ all_leaves self.now.key }
    {
        leaf_count(&self.heights) - self.used
    }

    /// The bytes of the public key.
    pub fn public(&self) -> [u8; 60]
        ensures { result ≡ key_public self.now.key }
    {
        let _heights = &self.heights;
        self.public
    }

    /// The next signature, of this message.
    pub fn sign(&mut self, message: &[u8]) -> Result<Vec<u8>, SignAnswer>
        ensures signature { IfOk result (λ sig. sig.items ≡ signature_at self.old.key self.old.used message.now) }
        ensures verifies { IfOk result (λ sig. Verifies (key_public self.old.key) message.now sig.items) }
        ensures short { IfOk result (λ sig. length sig.items ≤ longest_signature) }
        ensures one_more { OnOk result (self.new ≡ key_use self.old.key (self.old.used + 1)) }
        ensures spent { IsErrOf result SignAnswer.Spent ↔ (self.old.used ≡ all_leaves self.old.key) }
        ensures err { OnErr result (self.new ≡ self.old) }
    {
        let sig = self.next_signature(message)?;
        self.use_leaf();
        Ok(sig)
    }

    /// Each head with the next signature, of this message, behind it: one leaf for all of them. All are made before the
    /// leaf is used, so want of memory costs no leaf. No later `sign` or `sign_behind` of this key uses that leaf again.
    pub fn sign_behind(&mut self, heads: &[Bytes], message: &[u8]) -> Result<Vec<Bytes>, SignAnswer>
        ensures fields { IfOk result (λ fields. fields.items ≡ signed_behind self.old.key self.old.used message.now heads.now) }
        ensures verifies { OnOk result (Verifies (key_public self.old.key) message.now (signature_at self.old.key self.old.used message.now)) }
        ensures short { OnOk result (length (signature_at self.old.key self.old.used message.now) ≤ longest_signature) }
        ensures one_more { OnOk result (self.new ≡ key_use self.old.key (self.old.used + 1)) }
        ensures spent { IsErrOf result SignAnswer.Spent ↔ (self.old.used ≡ all_leaves self.old.key) }
        ensures err { OnErr result (self.new ≡ self.old) }
    {
        let sig = self.next_signature(message)?;
        let fields = put_behind(self.alloc, heads, &sig)?;
        self.use_leaf();
        Ok(fields)
    }

    // The next signature, of this message, whose leaf isn't used yet.
    fn next_signature(&mut self, message: &[u8]) -> Result<Vec<u8>, SignAnswer>
        ensures signature { IfOk result (λ sig. sig.items ≡ signature_at self.old.key self.old.used message.now) }
        ensures verifies { IfOk result (λ sig. Verifies (key_public self.old.key) message.now sig.items) }
        ensures short { IfOk result (λ sig. length sig.items ≤ longest_signature) }
        ensures left { OnOk result (self.old.used < all_leaves self.old.key) }
        ensures spent { IsErrOf result SignAnswer.Spent ↔ (self.old.used ≡ all_leaves self.old.key) }
        ensures same { self.new ≡ self.old }
    {
        if self.left() == 0 {
            return Err(SignAnswer::Spent);
        }
        let kept = self.path.take();
        let path = turned(
            self.alloc,
            &self.seed,
            &self.id,
            &self.heights,
            self.ots,
            self.used,
            kept,
        )?;
        let signed = path.sign(self.alloc, self.used, message);
        self.path = Some(path);
        Ok(signed?)
    }

    // Uses the next leaf, whose signature is given away.
    fn use_leaf(&mut self)
        requires { self.old.used < all_leaves self.old.key }
        ensures { self.new ≡ key_use self.old.key (self.old.used + 1) }
    {
        self.used += 1;
    }

    /// The signature of a message with number `m`, counted from 0, without using it.
    pub fn sign_at(&self, m: u64, message: &[u8]) -> Result<Vec<u8>, Want>
        requires { m < all_leaves self.now.key }
        ensures signature { IfOk result (λ sig. sig.items ≡ signature_at self.now.key m message.now) }
        ensures verifies { IfOk result (λ sig. Verifies (key_public self.now.key) message.now sig.items) }
        ensures short { IfOk result (λ sig. length sig.items ≤ longest_signature) }
    {
        let way = way_at(
            self.alloc,
            &self.seed,
            &self.id,
            &self.heights,
            self.ots,
            m,
            Vec::new(self.alloc),
        )?;
        Path { way, at: m }.sign(self.alloc, m, message)
    }
}

// A head and what stands behind it.
fn joined(alloc: Global, head: &[u8], behind: &[u8]) -> Result<Bytes, Want>
    ensures { IfOk result (λ field. field ≡ head.now ++ behind.now) }
{
    let mut field = Vec::new(alloc);
    put_bytes(&mut field, head)?;
    put_bytes(&mut field, behind)?;
    Bytes::from_vec(alloc, field)
}

// Each head with the signature behind it.
fn put_behind(alloc: Global, heads: &[Bytes], sig: &[u8]) -> Result<Vec<Bytes>, Want>
    ensures { IfOk result (λ fields. fields.items ≡ map (λ head. head ++ sig.now) heads.now) }
{
    let mut fields = Vec::with_capacity(alloc, heads.len())?;
    for head in heads {
        fields.push(joined(alloc, head.as_slice(), sig)?)?;
    }
    Ok(fields)
}

// Whether trees of all these heights are made.
fn heights_are_made(heights: &[u32]) -> bool
    ensures { IsTrue result ↔ HasMadeHeights heights.now }
{
    heights.iter().all(|height| *height == 5 || *height == 10)
}

// The number of signatures that a key with these heights has.
fn leaf_count(heights: &[u32]) -> u64
    requires levels { IsLevelCount (length heights.now) }
    requires heights { HasMadeHeights heights.now }
    ensures { result ≡ 2 ^ total heights.now }
{
    1 << total(heights)
}

/// The bytes of the public key that a key from these has. Of its trees only the top one is made, where `KeyState::make` makes one
/// for each level.
pub fn public_key(
    alloc: Global,
    seed: &[u8; 32],
    id: &[u8; 16],
    heights: &[u32],
    ots: Ots,
) -> Result<[u8; 60], Want>
    requires levels { IsLevelCount (length heights.now) }
    requires heights { HasMadeHeights heights.now }
    ensures { IfOk result (λ public. public ≡ key_public (key_from seed.now id.now heights.now ots)) }
{
    let Some((height, _lower)) = heights.split_first() else {
        unreachable!();
    };
    let top = tree_for(alloc, None, ots, *height, id, seed)?;
    Ok(hss_public(heights.len() as u32, &top))
}

// The key, where its heights are known to be good.
fn resumed(
    alloc: Global,
    seed: &[u8; 32],
    id: &[u8; 16],
    heights: &[u32],
    ots: Ots,
    used: u64,
) -> Result<KeyState, Want>
    requires used { used ≤ 2 ^ total heights.now }
    requires levels { IsLevelCount (length heights.now) }
    requires heights { HasMadeHeights heights.now }
    ensures { IfOk result (λ state. state ≡ key_use (key_from seed.now id.now heights.now ots) used) }
{
    let Some((height, _lower)) = heights.split_first() else {
        unreachable!();
    };
    let copied = Vec::from_slice(alloc, heights)?;
    let top = tree_for(alloc, None, ots, *height, id, seed)?;
    let public = hss_public(heights.len() as u32, &top);
    let mut kept = Vec::new(alloc);
    kept.push(top)?;
    let path = first_path(alloc, seed, id, heights, ots, used, kept)?;
    Ok(KeyState {
        seed: *seed,
        id: *id,
        heights: copied,
        ots,
        used,
        public,
        path,
        alloc,
    })
}

// The path to the next signature, if one is left.
fn first_path(
    alloc: Global,
    seed: &[u8; 32],
    id: &[u8; 16],
    heights: &[u32],
    ots: Ots,
    used: u64,
    kept: Vec<Tree>,
) -> Result<Option<Path>, Want>
    requires levels { IsLevelCount (length heights.now) }
    requires heights { HasMadeHeights heights.now }
    ensures { IfOk result (IsKeptPath (key_from seed.now id.now heights.now ots)) }
{
    if used >= leaf_count(heights) {
        return Ok(None);
    }
    let way = way_at(alloc, seed, id, heights, ots, used, kept)?;
    Ok(Some(Path { way, at: used }))
}
