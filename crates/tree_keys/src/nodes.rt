ghost use Rattle.std.specs.Prelude.{◌≡◌, ◌+◌, ◌*◌, ◌^◌, ◌<◌, ◌≤◌, length};
ghost use Rattle.tree_keys.specs.Nodes.{leaf_hash, inner_hash, parent_hash, path_at, climbed};

use ots_keys::hash_parts;

const D_LEAF: u16 = 0x8282;

const D_INTR: u16 = 0x8383;

// How many leaves a tree has.
pub(crate) fn leaf_count(height: u32) -> u32
    requires { height ≤ 25 }
    ensures count { result ≡ 2 ^ height }
    ensures some { 1 ≤ result }
    ensures fits { result ≤ 2 ^ 25 }
{
    1 << height
}

// A leaf over a one-time public key.
pub(crate) fn leaf_hash(id: &[u8; 16], r: u32, key: &[u8; 32]) -> [u8; 32]
    ensures { result ≡ leaf_hash id.now r key.now }
{
    hash_parts(id, r, D_LEAF, key, &[])
}

pub(crate) fn inner_hash(id: &[u8; 16], r: u32, left: &[u8; 32], right: &[u8; 32]) -> [u8; 32]
    ensures { result ≡ inner_hash id.now r left.now right.now }
{
    hash_parts(id, r, D_INTR, left, right)
}

// The hash of the parent of node `r`.
fn parent_hash(id: &[u8; 16], r: u32, here: &[u8; 32], beside: &[u8; 32]) -> [u8; 32]
    ensures { result ≡ parent_hash id.now r here.now beside.now }
{
    if r % 2 == 1 {
        inner_hash(id, r / 2, beside, here)
    } else {
        inner_hash(id, r / 2, here, beside)
    }
}

// The sibling's hash at a level of a path.
fn path_at(path: &[u8], level: u32) -> [u8; 32]
    requires small { level < 32 }
    requires inside { 32 * level + 32 ≤ length path.now }
    ensures { result ≡ path_at path.now level }
{
    let at = 32 * level as usize;
    let mut sibling = [0; 32];
    sibling.copy_from_slice(&path[at..at + 32]);
    sibling
}

// The hash `height` levels above node `r`, by a path of siblings.
pub(crate) fn climbed(id: &[u8; 16], path: &[u8], r: u32, leaf: &[u8; 32], height: u32) -> [u8; 32]
    requires small { height < 32 }
    requires levels { length path.now ≡ 32 * height }
    ensures { result ≡ climbed id.now path.now r leaf.now height }
{
    let mut hash = *leaf;
    'levels: for level in 0..height {
        hash = parent_hash(id, r >> level, &hash, &path_at(path, level));
    }
    hash
}
