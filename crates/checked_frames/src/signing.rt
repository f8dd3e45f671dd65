ghost use Rattle.std.specs.Prelude.{◌≡◌, ◌↔◌, ◌∷◌, ◌+◌, ◌*◌, ◌≤◌, [], drop, length, map, IsTrue, IfOk, OnOk, OnErr, IsErrOf};
ghost use Rattle.std.specs.List.{list_all};
ghost use Rattle.byteorder.specs.Endian.{big_number};
ghost use Rattle.quorum_sets.specs.Masters.{numbers_below};
ghost use Rattle.message_types.specs.Texts.{body_text};
ghost use Rattle.message_types.specs.Spelling.{body_fits};
ghost use Rattle.hash_signatures.specs.Signatures.{all_leaves, key_public};
ghost use Rattle.hash_signatures.specs.State.{key_use};
ghost use Rattle.checked_frames.specs.Verifying.{verifies};
ghost use Rattle.checked_frames.specs.Groups.{leaf_hash, root_of, path_of};
ghost use Rattle.checked_frames.specs.Levels.{levels_up};
ghost use Rattle.checked_frames.specs.Signing.{hashes_in, group_verifies, signs_in_group, signs, group_signatures, EachSigns, field_fits};
ghost use Rattle.checked_frames.specs.Heads.{head_through, IsUnsigned};

use crate::groups::{leaf_hash, led_to, put_levels, put_path};
use byteorder::{BigEndian, ByteOrder};
use hash_signatures::{Anew, KeyCheck, KeyState, SignAnswer, verify_by};
use history_rules::MOST_SHARING;
use message_forms::{batch_text, text_of};
use message_types::Body;
use plain_lists::{Bytes, Items, Want};
use std::alloc::Global;
use wire_parts::{put_bytes, put_u16, put_u32};

// What the second version of a signature begins with.
const GROUP_MARK: u32 = 256;

// Five levels join as many leaves as may share a signature.
const MOST_LEVELS: u32 = 5;

/// Whether the bytes sign the text under a public key: as an HSS signature of the text, or as the field of a body in a
/// group. It takes no memory.
pub fn signs(public: &[u8; 60], text: &[u8], sig: &[u8]) -> bool
    ensures { result ≡ signs public.now text.now sig.now }
{
    signs_by(&mut Anew, public, text, sig)
}

// As `signs`, with the signed keys verified by `check`.
#[tactic(auto, unfolding(crate::specs::Signing::signs))]
pub(crate) fn signs_by<C: KeyCheck>(
    check: &mut C,
    public: &[u8; 60],
    text: &[u8],
    sig: &[u8],
) -> bool
    ensures { result ≡ signs public.now text.now sig.now }
{
    hss_verifies(check, public, text, sig) || signs_in_group(check, public, text, sig)
}

// `verify_by` as the test that the definitions name.
fn hss_verifies<C: KeyCheck>(check: &mut C, public: &[u8; 60], text: &[u8], sig: &[u8]) -> bool
    ensures { result ≡ verifies public.now text.now sig.now }
{
    verify_by(check, public, text, sig)
}

// The number of 16 bits that stands there.
fn number_at(sig: &[u8], at: usize) -> u16
    requires { at + 2 ≤ length sig.now }
    ensures { result ≡ big_number 2 (drop at sig.now) }
{
    let (_, rest) = sig.split_at(at);
    BigEndian::read_u16(rest)
}

// Whether the bytes have the form of the second version and sign the text.
#[tactic(auto, unfolding(crate::specs::Signing::signs_in_group))]
fn signs_in_group<C: KeyCheck>(check: &mut C, public: &[u8; 60], text: &[u8], sig: &[u8]) -> bool
    ensures { result ≡ signs_in_group public.now text.now sig.now }
{
    if sig.len() < 10 || BigEndian::read_u32(sig) != GROUP_MARK {
        return false;
    }
    let place = number_at(sig, 4);
    let count = number_at(sig, 6);
    let hashes = number_at(sig, 8);
    if count < 2 || count > MOST_SHARING || place >= count {
        return false;
    }
    if sig.len() < 10 + 32 * hashes as usize {
        return false;
    }
    group_verifies(check, public, text, sig)
}

// Whether the HSS signature at the end signs the message of the group whose root the path leads to.
#[tactic(auto, unfolding(crate::specs::Groups::most_levels))]
fn group_verifies<C: KeyCheck>(check: &mut C, public: &[u8; 60], text: &[u8], sig: &[u8]) -> bool
    requires head { 10 ≤ length sig.now }
    requires path { 10 + 32 * hashes_in sig.now ≤ length sig.now }
    ensures { result ≡ group_verifies public.now text.now sig.now }
{
    let place = number_at(sig, 4);
    let count = number_at(sig, 6);
    let hashes = number_at(sig, 8);
    let (_, behind) = sig.split_at(10);
    let (path, signed) = behind.split_at(32 * hashes as usize);
    match led_to(
        MOST_LEVELS,
        u32::from(count),
        u32::from(place),
        &leaf_hash(text),
        path,
    ) {
        None => false,
        Some(root) => hss_verifies(check, public, &batch_text(count, &root), signed),
    }
}

// The leaves of the tree over a group of bodies.
fn leaves_of(alloc: Global, bodies: &[Body]) -> Result<Items<[u8; 32]>, Want>
    requires { IsTrue (list_all body_fits bodies.now) }
    ensures { IfOk result (λ leaves. leaves ≡ map (λ b. leaf_hash (body_text b)) bodies.now) }
{
    let mut leaves = Items::new(alloc);
    for body in bodies {
        let text = text_of(alloc, body)?;
        leaves.push(leaf_hash(&text))?;
    }
    Ok(leaves)
}

// What stands before the signature in the field of the body at a place.
#[tactic(auto, unfolding(crate::specs::Signing::group_head))]
fn head_of(alloc: Global, levels: &[Items<[u8; 32]>], place: u16, count: u16) -> Result<Bytes, Want>
    requires { length levels.now ≤ 5 }
    ensures { IfOk result (λ head. head ≡ head_through levels.now count place) }
{
    let mut path = Vec::new(alloc);
    put_path(&mut path, levels, u32::from(place))?;
    let mut head = Vec::new(alloc);
    put_u32(&mut head, GROUP_MARK)?;
    put_u16(&mut head, place)?;
    put_u16(&mut head, count)?;
    put_u16(&mut head, (path.len() / 32) as u16)?;
    put_bytes(&mut head, &path)?;
    Bytes::from_vec(alloc, head)
}

// What stands before the signature in the fields of all bodies of a group.
fn heads_of(alloc: Global, levels: &[Items<[u8; 32]>], count: u16) -> Result<Vec<Bytes>, Want>
    requires { length levels.now ≤ 5 }
    ensures { IfOk result (λ heads. heads.items ≡ map (head_through levels.now count) (numbers_below count)) }
{
    let mut heads = Vec::with_capacity(alloc, count as usize)?;
    for place in 0..count {
        heads.push(head_of(alloc, levels, place, count)?)?;
    }
    Ok(heads)
}

// The tree over a group, as its levels and its root.
#[derive(Drop)]
struct GroupTree {
    levels: Items<Items<[u8; 32]>>,
    root: [u8; 32],
}

#[tactic(auto, unfolding(crate::specs::Groups::root_of, crate::specs::Groups::most_levels))]
fn tree_over(alloc: Global, leaves: Items<[u8; 32]>) -> Result<GroupTree, Want>
    requires { 1 ≤ length leaves }
    ensures levels { IfOk result (λ tree. tree.levels ≡ levels_up 5 leaves) }
    ensures root { IfOk result (λ tree. tree.root ≡ root_of leaves) }
{
    let mut levels = Items::new(alloc);
    let top = put_levels(alloc, &mut levels, leaves, MOST_LEVELS)?;
    let Some(root) = top.get(0) else {
        unreachable!();
    };
    Ok(GroupTree {
        levels,
        root: *root,
    })
}

// What a key signs once for a group of bodies, and what stands before that signature in the field of each.
#[derive(Drop)]
struct Unsigned {
    heads: Vec<Bytes>,
    message: Vec<u8>,
}

// Several bodies share the message of their tree, and the paths through it stand before the signature.
fn several_unsigned(alloc: Global, bodies: &[Body]) -> Result<Unsigned, Want>
    requires some { 2 ≤ length bodies.now }
    requires few { length bodies.now ≤ MOST_SHARING }
    requires spelled { IsTrue (list_all body_fits bodies.now) }
    ensures { IfOk result (λ group. IsUnsigned (map body_text bodies.now) group.message.items group.heads.items) }
{
    let leaves = leaves_of(alloc, bodies)?;
    let tree = tree_over(alloc, leaves)?;
    let count = bodies.len() as u16;
    let heads = heads_of(alloc, tree.levels.as_slice(), count)?;
    let message = Vec::from_slice(alloc, &batch_text(count, &tree.root))?;
    Ok(Unsigned { heads, message })
}

// Nothing before the signature, as in the field of a lone body.
fn no_head(alloc: Global) -> Result<Vec<Bytes>, Want>
    ensures { IfOk result (λ heads. heads.items ≡ [] ∷ []) }
{
    let mut heads = Vec::new(alloc);
    heads.push(Bytes::from_slice(alloc, &[])?)?;
    Ok(heads)
}

// Of one body its text is signed.
fn one_unsigned(alloc: Global, bodies: &[Body]) -> Result<Unsigned, Want>
    requires one { length bodies.now ≡ 1 }
    requires spelled { IsTrue (list_all body_fits bodies.now) }
    ensures { IfOk result (λ group. IsUnsigned (map body_text bodies.now) group.message.items group.heads.items) }
{
    let message = text_of(alloc, &bodies[0])?;
    let heads = no_head(alloc)?;
    Ok(Unsigned { heads, message })
}

fn unsigned_of(alloc: Global, bodies: &[Body]) -> Result<Unsigned, Want>
    requires some { 1 ≤ length bodies.now }
    requires few { length bodies.now ≤ MOST_SHARING }
    requires spelled { IsTrue (list_all body_fits bodies.now) }
    ensures { IfOk result (λ group. IsUnsigned (map body_text bodies.now) group.message.items group.heads.items) }
{
    if bodies.len() == 1 {
        return one_unsigned(alloc, bodies);
    }
    several_unsigned(alloc, bodies)
}

/// The signatures of 1 to `MOST_SHARING` bodies, in their order, with the next leaf of the key: one leaf for all of them. After an
/// error nothing was given away and the same leaf is next.
pub fn sign_group(
    alloc: Global,
    key: &mut KeyState,
    bodies: &[Body],
) -> Result<Vec<Bytes>, SignAnswer>
    requires some { 1 ≤ length bodies.now }
    requires few { length bodies.now ≤ MOST_SHARING }
    requires spelled { IsTrue (list_all body_fits bodies.now) }
    ensures signatures { IfOk result (λ fields. fields.items
        ≡ group_signatures key.old.key key.old.used (map body_text bodies.now)) }
    ensures signs { IfOk result (λ fields. EachSigns (key_public key.old.key) (map body_text bodies.now) fields.items) }
    ensures fit { IfOk result (λ fields. IsTrue (list_all field_fits fields.items)) }
    ensures one_more { OnOk result (key.new ≡ key_use key.old.key (key.old.used + 1)) }
    ensures spent { IsErrOf result SignAnswer.Spent ↔ (key.old.used ≡ all_leaves key.old.key) }
    ensures err { OnErr result (key.new ≡ key.old) }
{
    if key.left() == 0 {
        return Err(SignAnswer::Spent);
    }
    let group = unsigned_of(alloc, bodies)?;
    let fields = key.sign_behind(&group.heads, &group.message)?;
    Ok(fields)
}
