ghost use Rattle.std.specs.Prelude.{◌≡◌, ◌/◌, ◌%◌, ◌^◌, ◌<◌, ◌≤◌, ◌++◌, IsTrue, IfOk, OnOk};
ghost use Rattle.tree_keys.specs.Nodes.{tree_from};
ghost use Rattle.tree_keys.specs.Trees.{IsMadeHeight, tree_public, tree_signature};
ghost use Rattle.hash_signatures.specs.Signatures.{total, child_tree, leaf_at, signed_key};
ghost use Rattle.hash_signatures.specs.State.{HasMadeHeights};
ghost use Rattle.hash_signatures.specs.Descent.{front_below, bottom_below};

use ots_keys::{Ots, hash_parts};
use std::alloc::Global;
use tree_keys::{Tree, TreeAnswer};
use wire_parts::{Want, put_bytes};

const CHILD_ID: u16 = 0xFFFE;

const CHILD_SEED: u16 = 0xFFFF;

// All heights together.
pub(crate) fn total(heights: &[u32]) -> u32
    requires { total heights.now ≤ 60 }
    ensures { result ≡ total heights.now }
{
    match heights.split_first() {
        None => 0,
        Some((height, lower)) => *height + total(lower),
    }
}

// The leaf of a tree of this height that signature `m` goes through.
pub(crate) fn leaf_of(height: u32, lower: &[u32], m: u64) -> u32
    requires height { height ≤ 10 }
    requires lower { total lower.now ≤ 60 }
    ensures leaf { result ≡ m / 2 ^ total lower.now % 2 ^ height }
    ensures inside { result < 2 ^ height }
{
    ((m >> total(lower)) % (1u64 << height)) as u32
}

// Whether this is the tree that comes from these.
fn comes_from(tree: &Tree, ots: Ots, height: u32, id: &[u8; 16], seed: &[u8; 32]) -> bool
    ensures { IsTrue result → tree.now ≡ tree_from height ots id.now seed.now }
{
    tree.height() == height && tree.ots() == ots && tree.id() == id && tree.seed() == seed
}

// The tree that comes from these: the kept one, if it is that, else a new one.
pub(crate) fn tree_for(
    alloc: Global,
    kept: Option<Tree>,
    ots: Ots,
    height: u32,
    id: &[u8; 16],
    seed: &[u8; 32],
) -> Result<Tree, Want>
    requires { IsMadeHeight height }
    ensures { IfOk result (λ tree. tree ≡ tree_from height ots id.now seed.now) }
{
    if let Some(tree) = kept {
        if comes_from(&tree, ots, height, id, seed) {
            return Ok(tree);
        }
    }
    match Tree::make(alloc, ots, height, id, seed) {
        Ok(tree) => Ok(tree),
        Err(TreeAnswer::Want) => Err(Want),
        Err(TreeAnswer::HeightNotMade) => unreachable!(),
    }
}

// The tree of height `height` under leaf `q` of a tree: the kept one, if it is that, else a new one.
fn child_for(
    alloc: Global,
    kept: Option<Tree>,
    tree: &Tree,
    height: u32,
    q: u32,
) -> Result<Tree, Want>
    requires { IsMadeHeight height }
    ensures { IfOk result (λ child. child ≡ child_tree tree.now height q) }
{
    let id_hash = hash_parts(tree.id(), q, CHILD_ID, &[0xff], tree.seed());
    let seed = hash_parts(tree.id(), q, CHILD_SEED, &[0xff], tree.seed());
    let mut id = [0; 16];
    id.copy_from_slice(&id_hash[..16]);
    tree_for(alloc, kept, tree.ots(), height, &id, &seed)
}

// Appends the signed key of the tree below: its public key, signed with leaf `q`.
fn put_signed_key(front: &mut Vec<u8>, tree: &Tree, child: &Tree, q: u32) -> Result<(), Want>
    requires leaf { q < 2 ^ tree.now.height }
    ensures { OnOk result (front.new.items ≡ front.old.items
        ++ (tree_signature tree.now q (tree_public child.now) ++ tree_public child.now)) }
{
    let public = child.public();
    let signed = tree.sign(q, &public)?;
    put_bytes(front, &signed)?;
    put_bytes(front, &public)
}

/// A way down from the top tree: the signed keys of the trees passed, those trees, and the tree where
/// the way ends so far.
#[derive(Drop)]
pub(crate) struct Way {
    pub(crate) front: Vec<u8>,
    pub(crate) above: Vec<Tree>,
    pub(crate) lowest: Tree,
}

// One level further down, through leaf `q` of the lowest tree.
fn step_down(alloc: Global, way: Way, kept: Option<Tree>, height: u32, q: u32) -> Result<Way, Want>
    requires height { IsMadeHeight height }
    requires leaf { q < 2 ^ way.lowest.height }
    ensures lowest { IfOk result (λ next. next.lowest ≡ child_tree way.lowest height q) }
    ensures front { IfOk result (λ next. next.front.items ≡ way.front.items ++ signed_key way.lowest height q) }
{
    let Way {
        mut front,
        mut above,
        lowest,
    } = way;
    let child = child_for(alloc, kept, &lowest, height, q)?;
    put_signed_key(&mut front, &lowest, &child, q)?;
    above.push(lowest)?;
    Ok(Way {
        front,
        above,
        lowest: child,
    })
}

// Goes on to the lowest level, on the way to signature `m`. `kept` has trees of an earlier way, of
// which those that stand on this one are taken again.
pub(crate) fn descend(
    alloc: Global,
    way: Way,
    kept: &mut Vec<Tree>,
    lower: &[u32],
    m: u64,
) -> Result<Way, Want>
    requires height { IsMadeHeight way.lowest.height }
    requires heights { HasMadeHeights lower.now }
    requires few { total lower.now ≤ 60 }
    ensures lowest { IfOk result (λ done. done.lowest ≡ bottom_below way.lowest lower.now m) }
    ensures front { IfOk result (λ done. done.front.items
        ≡ way.front.items ++ front_below way.lowest lower.now m) }
{
    match lower.split_first() {
        None => Ok(way),
        Some((height, rest)) => {
            let q = leaf_of(way.lowest.height(), lower, m);
            let next = step_down(alloc, way, kept.pop(), *height, q)?;
            descend(alloc, next, kept, rest, m)
        }
    }
}
