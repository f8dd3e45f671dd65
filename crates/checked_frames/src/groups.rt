ghost use Rattle.std.specs.Prelude.{◌≡◌, ◌++◌, ◌+◌, ◌*◌, ◌<◌, ◌≤◌, length, OnOk, IfOk};
ghost use Rattle.checked_frames.specs.Groups.{leaf_hash, joined_hash, level_above, raised, sibling, parent_hash, led_to, beside, path_up};
ghost use Rattle.checked_frames.specs.Levels.{levels_up, path_through};

use plain_lists::{Items, Want};
use sha2::{Digest, Sha256};
use std::alloc::Global;
use wire_parts::put_bytes;

/// The hash of a body's text in the tree of its group.
#[tactic(auto, unfolding(crate::specs::Groups::leaf_hash))]
pub(crate) fn leaf_hash(text: &[u8]) -> [u8; 32]
    ensures { result ≡ leaf_hash text.now }
{
    let mut hasher = Sha256::new();
    hasher.update([0]);
    hasher.update(text);
    hasher.finalize()
}

#[tactic(auto, unfolding(crate::specs::Groups::joined_hash))]
fn joined_hash(left: &[u8; 32], right: &[u8; 32]) -> [u8; 32]
    ensures { result ≡ joined_hash left.now right.now }
{
    let mut hasher = Sha256::new();
    hasher.update([1]);
    hasher.update(left);
    hasher.update(right);
    hasher.finalize()
}

// The other node below the same parent.
fn sibling(place: u32) -> u32
    requires { place < 65536 }
    ensures value { result ≡ sibling place }
    ensures small { result ≤ 65536 }
{
    if place % 2 == 1 { place - 1 } else { place + 1 }
}

fn parent_hash(place: u32, here: &[u8; 32], beside: &[u8; 32]) -> [u8; 32]
    ensures { result ≡ parent_hash place here.now beside.now }
{
    if place % 2 == 1 {
        joined_hash(beside, here)
    } else {
        joined_hash(here, beside)
    }
}

/// Where a path leads from a node at a place among `count`, so many levels up. It takes no memory.
pub(crate) fn led_to(
    levels: u32,
    count: u32,
    place: u32,
    here: &[u8; 32],
    path: &[u8],
) -> Option<[u8; 32]>
    requires places { place < 65536 }
    requires counts { count ≤ 65536 }
    ensures { result ≡ led_to levels count place here.now path.now }
{
    if levels == 0 {
        return if path.is_empty() { Some(*here) } else { None };
    }
    if sibling(place) >= count {
        return led_to(levels - 1, (count + 1) / 2, place / 2, here, path);
    }
    if path.len() < 32 {
        return None;
    }
    let (first, rest) = path.split_at(32);
    let mut beside = [0; 32];
    beside.copy_from_slice(first);
    led_to(
        levels - 1,
        (count + 1) / 2,
        place / 2,
        &parent_hash(place, here, &beside),
        rest,
    )
}

fn put_level_above(out: &mut Items<[u8; 32]>, nodes: &[[u8; 32]]) -> Result<(), Want>
    ensures { OnOk result (out.new ≡ out.old ++ level_above nodes.now) }
{
    match nodes {
        [] => Ok(()),
        [last] => out.push(*last),
        [left, right, rest @ ..] => {
            out.push(joined_hash(left, right))?;
            put_level_above(out, rest)
        }
    }
}

fn level_above(alloc: Global, nodes: &[[u8; 32]]) -> Result<Items<[u8; 32]>, Want>
    ensures { IfOk result (λ above. above ≡ level_above nodes.now) }
{
    let mut above = Items::new(alloc);
    put_level_above(&mut above, nodes)?;
    Ok(above)
}

// Appends the levels from the one with these nodes on, and gives the level above them.
pub(crate) fn put_levels(
    alloc: Global,
    levels: &mut Items<Items<[u8; 32]>>,
    nodes: Items<[u8; 32]>,
    count: u32,
) -> Result<Items<[u8; 32]>, Want>
    ensures levels { OnOk result (levels.new ≡ levels.old ++ levels_up count nodes) }
    ensures top { IfOk result (λ top. top ≡ raised count nodes) }
{
    if count == 0 {
        return Ok(nodes);
    }
    let above = level_above(alloc, nodes.as_slice())?;
    levels.push(nodes)?;
    put_levels(alloc, levels, above, count - 1)
}

// Appends the sibling's hash, where there is a sibling.
fn put_beside(path: &mut Vec<u8>, nodes: &Items<[u8; 32]>, place: u32) -> Result<(), Want>
    requires { place < 65536 }
    ensures added { OnOk result (path.new.items ≡ path.old.items ++ beside nodes.now place) }
    ensures few { OnOk result (length path.new.items ≤ length path.old.items + 32) }
{
    match nodes.get(sibling(place) as usize) {
        None => Ok(()),
        Some(hash) => put_bytes(path, hash),
    }
}

/// Appends the siblings' hashes on the way up through these levels.
pub(crate) fn put_path(
    path: &mut Vec<u8>,
    levels: &[Items<[u8; 32]>],
    place: u32,
) -> Result<(), Want>
    requires { place < 65536 }
    ensures added { OnOk result (path.new.items ≡ path.old.items ++ path_through levels.now place) }
    ensures few { OnOk result (length path.new.items ≤ length path.old.items + 32 * length levels.now) }
{
    match levels.split_first() {
        None => Ok(()),
        Some((nodes, above)) => {
            put_beside(path, nodes, place)?;
            put_path(path, above, place / 2)
        }
    }
}
