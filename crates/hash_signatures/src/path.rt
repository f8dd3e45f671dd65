ghost use Rattle.std.specs.Prelude.{◌≡◌, ◌↔◌, ◌++◌, ◌/◌, ◌^◌, [], length, IsTrue, IfOk};
ghost use Rattle.wire_parts.specs.Fields.{u32_bytes};
ghost use Rattle.tree_keys.specs.Trees.{IsMadeHeight, tree_public, tree_signature};
ghost use Rattle.hash_signatures.specs.Signatures.{leaf_at};
ghost use Rattle.hash_signatures.specs.State.{key_from, IsLevelCount, HasMadeHeights};
ghost use Rattle.hash_signatures.specs.Path.{IsWayOf, IsKeptPath};

use crate::descent::{Way, descend, leaf_of, tree_for};
use ots_keys::Ots;
use std::alloc::Global;
use tree_keys::Tree;
use wire_parts::{Want, put_bytes, put_u32};

/// A way down, and the number of a signature that it leads to.
#[derive(Drop)]
pub(crate) struct Path {
    pub(crate) way: Way,
    pub(crate) at: u64,
}

impl Path {
    // Whether the path leads to signature `m` too: whether that has the same lowest tree.
    fn leads_to(&self, m: u64) -> bool
        requires { IsMadeHeight self.now.way.lowest.height }
        ensures { IsTrue result ↔ (self.now.at / 2 ^ self.now.way.lowest.height ≡ m / 2 ^ self.now.way.lowest.height) }
    {
        let height = self.way.lowest.height();
        self.at >> height == m >> height
    }

    // The same path, as the one to signature `m`.
    fn renumbered(self, m: u64) -> Path
        ensures way { result.way ≡ self.way }
        ensures at { result.at ≡ m }
    {
        let Path { way, at: _ } = self;
        Path { way, at: m }
    }

    // The trees above the lowest one, the highest one last.
    fn into_trees(self) -> Vec<Tree> {
        let Path { way, at: _ } = self;
        let Way {
            front: _,
            mut above,
            lowest: _,
        } = way;
        above.reverse();
        above
    }

    /// Signature `m` of the message, to which the path leads.
    pub(crate) fn sign(&self, alloc: Global, m: u64, message: &[u8]) -> Result<Vec<u8>, Want>
        requires { IsMadeHeight self.now.way.lowest.height }
        ensures { IfOk result (λ sig. sig.items ≡ self.now.way.front.items
            ++ tree_signature self.now.way.lowest (leaf_at self.now.way.lowest [] m) message.now) }
    {
        let lowest = &self.way.lowest;
        let q = leaf_of(lowest.height(), &[], m);
        let signed = lowest.sign(q, message)?;
        let mut sig = Vec::with_capacity(alloc, self.way.front.len() + signed.len())?;
        put_bytes(&mut sig, &self.way.front)?;
        put_bytes(&mut sig, &signed)?;
        Ok(sig)
    }
}

/// The bytes of an HSS public key.
#[tactic(auto, unfolding(wire_parts::specs::Fields::u32_bytes))]
pub(crate) fn hss_public(levels: u32, top: &Tree) -> [u8; 60]
    ensures { result ≡ u32_bytes levels ++ tree_public top.now }
{
    let mut bytes = [0; 60];
    let (count, key) = bytes.split_at_mut(4);
    count.copy_from_slice(&levels.to_be_bytes());
    key.copy_from_slice(&top.public());
    bytes
}

/// The way to signature `m`. `kept` has trees of an earlier way, the highest one last.
pub(crate) fn way_at(
    alloc: Global,
    seed: &[u8; 32],
    id: &[u8; 16],
    heights: &[u32],
    ots: Ots,
    m: u64,
    kept: Vec<Tree>,
) -> Result<Way, Want>
    requires levels { IsLevelCount (length heights.now) }
    requires heights { HasMadeHeights heights.now }
    ensures { IfOk result (IsWayOf (key_from seed.now id.now heights.now ots) m) }
{
    let mut kept = kept;
    let Some((height, lower)) = heights.split_first() else {
        unreachable!();
    };
    let top = tree_for(alloc, kept.pop(), ots, *height, id, seed)?;
    let mut front = Vec::new(alloc);
    put_u32(&mut front, lower.len() as u32)?;
    let way = Way {
        front,
        above: Vec::new(alloc),
        lowest: top,
    };
    descend(alloc, way, &mut kept, lower, m)
}

/// The path to signature `m`: the kept one, if it leads there, else a new one.
pub(crate) fn turned(
    alloc: Global,
    seed: &[u8; 32],
    id: &[u8; 16],
    heights: &[u32],
    ots: Ots,
    m: u64,
    kept: Option<Path>,
) -> Result<Path, Want>
    requires levels { IsLevelCount (length heights.now) }
    requires heights { HasMadeHeights heights.now }
    requires kept { IsKeptPath (key_from seed.now id.now heights.now ots) kept }
    ensures way { IfOk result (λ path. IsWayOf (key_from seed.now id.now heights.now ots) m path.way) }
    ensures at { IfOk result (λ path. path.at ≡ m) }
{
    match kept {
        None => {
            let way = way_at(alloc, seed, id, heights, ots, m, Vec::new(alloc))?;
            Ok(Path { way, at: m })
        }
        Some(path) => {
            if path.leads_to(m) {
                return Ok(path.renumbered(m));
            }
            let trees = path.into_trees();
            let way = way_at(alloc, seed, id, heights, ots, m, trees)?;
            Ok(Path { way, at: m })
        }
    }
}
