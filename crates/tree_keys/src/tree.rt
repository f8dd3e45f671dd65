ghost use Rattle.std.specs.Prelude.{◌≡◌, ◌↔◌, ◌+◌, ◌-◌, ◌*◌, ◌^◌, ◌<◌, ◌≤◌, ◌++◌, length, IfOk, OnOk, IsErrOf};
ghost use Rattle.tree_keys.specs.Nodes.{TreeSeed, node, tree_from, stored};
ghost use Rattle.tree_keys.specs.Trees.{tree_public, tree_signature, path_node, IsMadeHeight};
ghost use Rattle.ots_keys.specs.Keys.{joined};

use crate::nodes::{inner_hash, leaf_count, leaf_hash};
use crate::public_key::{PublicKey, code_of_height};
use ots_keys::{Ots, ots_publics, ots_sign};
use std::alloc::Global;
use std::marker::Model;
use thiserror::Error;
use wire_parts::{Want, put_bytes, put_u32};

/// Why a tree isn't made.
#[derive(Clone, Copy, Debug, PartialEq, Eq, Error)]
pub enum TreeAnswer {
    #[error("trees are made with height 5 or 10")]
    HeightNotMade,
    #[error("want of memory")]
    Want,
}

impl From<Want> for TreeAnswer {
    ghost use Rattle.std.specs.Prelude.{◌≡◌};
    ghost use Rattle.tree_keys.specs.declared.tree.TreeAnswer.TheVariants.{Want as WantAnswer};

    ghost from_gives = { λ _ answer. answer ≡ WantAnswer };

    fn from(_want: Want) -> TreeAnswer {
        TreeAnswer::Want
    }
}

/// A tree of one-time keys, with all its nodes.
#[derive(Drop)]
pub struct Tree {
    height: u32,
    ots: Ots,
    id: [u8; 16],
    seed: [u8; 32],
    nodes: Vec<[u8; 32]>,
    alloc: Global,
}

impl Model for Tree {
    ghost use Rattle.tree_keys.specs.Nodes.{TreeSeed};

    ghost Value = { TreeSeed };

    ghost use Rattle.tree_keys.specs.Built.{seed_of, IsBuilt};

    ghost view = { seed_of };

    ghost invariant = { IsBuilt };
}

impl Tree {
    /// The tree over the one-time keys that come from a seed, under the identifier `id`.
    pub fn make(
        alloc: Global,
        ots: Ots,
        height: u32,
        id: &[u8; 16],
        seed: &[u8; 32],
    ) -> Result<Tree, TreeAnswer>
        ensures made { IfOk result (λ tree. tree ≡ tree_from height ots id.now seed.now) }
        ensures height { OnOk result (IsMadeHeight height) }
        ensures not_made { IsErrOf result TreeAnswer.HeightNotMade ↔ (IsMadeHeight height → ⊥) }
    {
        if height != 5 && height != 10 {
            return Err(TreeAnswer::HeightNotMade);
        }
        let nodes = build(alloc, ots, height, id, seed)?;
        Ok(Tree {
            height,
            ots,
            id: *id,
            seed: *seed,
            nodes,
            alloc,
        })
    }

    pub fn height(&self) -> u32
        ensures { result ≡ self.now.height }
    {
        self.height
    }

    /// The type of the one-time keys.
    pub fn ots(&self) -> Ots
        ensures { result ≡ self.now.ots }
    {
        self.ots
    }

    /// The identifier I.
    pub fn id(&self) -> &[u8; 16]
        ensures { result.now ≡ self.now.id }
    {
        &self.id
    }

    pub fn seed(&self) -> &[u8; 32]
        ensures { result.now ≡ self.now.seed }
    {
        &self.seed
    }

    // The hash of node `r`.
    fn node(&self, r: u32) -> &[u8; 32]
        requires low { 1 ≤ r }
        requires high { r < 2 * 2 ^ self.now.height }
        ensures { result.now ≡ node self.now r }
    {
        let last = 2 * leaf_count(self.height) - 1;
        &self.nodes[(last - r) as usize]
    }

    /// The bytes of the public key.
    pub fn public(&self) -> [u8; 56]
        ensures { result ≡ tree_public self.now }
    {
        let key = PublicKey {
            height: self.height,
            ots: self.ots,
            id: self.id,
            root: *self.node(1),
        };
        key.to_bytes()
    }

    /// The signature of a message with leaf `q`. A leaf may sign one message alone.
    pub fn sign(&self, q: u32, message: &[u8]) -> Result<Vec<u8>, Want>
        requires { q < 2 ^ self.now.height }
        ensures { IfOk result (λ sig. sig.items ≡ tree_signature self.now q message.now) }
    {
        let ots_sig = ots_sign(self.alloc, self.ots, &self.id, q, &self.seed, message)?;
        let len = 8 + ots_sig.len() + 32 * self.height as usize;
        let mut sig = Vec::with_capacity(self.alloc, len)?;
        put_u32(&mut sig, q)?;
        put_bytes(&mut sig, &ots_sig)?;
        put_u32(&mut sig, code_of_height(self.height))?;
        self.put_path(&mut sig, q)?;
        Ok(sig)
    }

    // Appends the path of leaf `q`.
    fn put_path(&self, sig: &mut Vec<u8>, q: u32) -> Result<(), Want>
        requires { q < 2 ^ self.now.height }
        ensures { OnOk result (sig.new.items ≡ sig.old.items ++ joined (path_node self.now q) self.now.height) }
    {
        'levels: for level in 0..self.height {
            let beside = self.node_beside(q, level);
            put_bytes(sig, beside)?;
        }
        Ok(())
    }

    // The sibling of the node that stands `level` levels above leaf `q`.
    fn node_beside(&self, q: u32, level: u32) -> &[u8; 32]
        requires leaf { q < 2 ^ self.now.height }
        requires inside { level < self.now.height }
        ensures { result.now ≡ path_node self.now q level }
    {
        let r = (leaf_count(self.height) + q) >> level;
        self.node(if r % 2 == 1 { r - 1 } else { r + 1 })
    }
}

// Appends the leaves of eight one-time keys, from that of number `q + 7` down.
fn put_leaves(
    nodes: &mut Vec<[u8; 32]>,
    ots: Ots,
    height: u32,
    id: &[u8; 16],
    seed: &[u8; 32],
    q: u32,
) -> Result<(), Want>
    requires height { height ≤ 25 }
    requires leaves { q + 8 ≤ 2 ^ height }
    requires nodes { nodes.old.items ≡ stored (tree_from height ots id.now seed.now) (2 ^ height - 8 - q) }
    ensures { OnOk result (nodes.new.items ≡ stored (tree_from height ots id.now seed.now) (2 ^ height - q)) }
{
    let first = leaf_count(height) + q;
    let keys = ots_publics(ots, id, q, seed);
    'leaves: for i in 0..8u32 {
        let j = 7 - i;
        nodes.push(leaf_hash(id, first + j, &keys[j as usize]))?;
    }
    Ok(())
}

// All nodes of a tree, from the last down to the root. The leaves are made eight at a time.
fn build(
    alloc: Global,
    ots: Ots,
    height: u32,
    id: &[u8; 16],
    seed: &[u8; 32],
) -> Result<Vec<[u8; 32]>, Want>
    requires { IsMadeHeight height }
    ensures { IfOk result (λ nodes. nodes.items
        ≡ stored (tree_from height ots id.now seed.now) (2 * 2 ^ height - 1)) }
{
    let leaves = leaf_count(height);
    let mut nodes = Vec::with_capacity(alloc, (2 * leaves - 1) as usize)?;
    'leaves: for i in 0..leaves / 8 {
        put_leaves(&mut nodes, ots, height, id, seed, leaves - 8 - 8 * i)?;
    }
    'nodes: for i in 0..leaves - 1 {
        nodes.push(inner_node(&nodes, height, id, leaves - 1 - i))?;
    }
    Ok(nodes)
}

// The hash of the inner node `r`, where those above `r` stand in `nodes`.
fn inner_node(nodes: &[[u8; 32]], height: u32, id: &[u8; 16], r: u32) -> [u8; 32]
    requires height { height ≤ 25 }
    requires low { 1 ≤ r }
    requires high { r < 2 ^ height }
    requires nodes { length nodes.now ≡ 2 * 2 ^ height - 1 - r }
    ensures { (tree : TreeSeed) → tree.height ≡ height → tree.id ≡ id.now
        → nodes.now ≡ stored tree (2 * 2 ^ height - 1 - r) → result ≡ node tree r }
{
    let right = (2 * leaf_count(height) - 2 - 2 * r) as usize;
    inner_hash(id, r, &nodes[right + 1], &nodes[right])
}
