ghost use Rattle.std.specs.Prelude.{◌≡◌, ◌↔◌, ◌+◌, ◌-◌, ◌*◌, ◌/◌, ◌<◌, ◌≤◌, drop, length, map, take, IsTrue, IfOk, OnOk, OnErr, IsErrOf};
ghost use Rattle.std.specs.List.{list_all};
ghost use Rattle.message_types.specs.Texts.{body_text};
ghost use Rattle.message_types.specs.Spelling.{body_fits};
ghost use Rattle.hash_signatures.specs.Signatures.{all_leaves, key_public};
ghost use Rattle.checked_frames.specs.Signing.{group_signatures, EachSigns, field_fits};
ghost use Rattle.checked_frames.specs.Entries.{group_size, groups_for, entry_signatures};

use crate::signing::sign_group;
use hash_signatures::{KeyState, SignAnswer};
use history_rules::MOST_SHARING;
use message_types::Body;
use plain_lists::{Bytes, Want};
use std::alloc::Global;

// A whole group, where bodies share a leaf.
const WHOLE_GROUP: usize = MOST_SHARING as usize;

// So many bodies make a whole group.
fn group_size(shared: bool) -> usize
    ensures { result ≡ group_size shared }
{
    if shared { WHOLE_GROUP } else { 1 }
}

fn shared_groups(count: usize) -> usize
    ensures { result ≡ (count + (WHOLE_GROUP - 1)) / WHOLE_GROUP }
{
    if count % WHOLE_GROUP == 0 {
        count / WHOLE_GROUP
    } else {
        count / WHOLE_GROUP + 1
    }
}

// How many groups so many bodies make.
#[tactic(auto, using(crate::proofs::EntryLaws::groups_of_many, crate::proofs::EntryLaws::groups_of_one))]
fn groups_for(shared: bool, count: usize) -> usize
    ensures { result ≡ groups_for (group_size shared) count }
{
    if shared { shared_groups(count) } else { count }
}

// The bodies of a group.
fn group_of(bodies: &[Body], shared: bool, number: usize) -> &[Body]
    requires { group_size shared * number ≤ length bodies.now }
    ensures { result.now ≡ take (group_size shared) (drop (group_size shared * number) bodies.now) }
{
    let size = group_size(shared);
    let (_, rest) = bodies.split_at(size * number);
    if rest.len() <= size {
        return rest;
    }
    let (group, _) = rest.split_at(size);
    group
}

// The signatures of a group, where a leaf is left for it.
fn sign_left(alloc: Global, key: &mut KeyState, bodies: &[Body]) -> Result<Vec<Bytes>, Want>
    requires some { 1 ≤ length bodies.now }
    requires few { length bodies.now ≤ MOST_SHARING }
    requires spelled { IsTrue (list_all body_fits bodies.now) }
    requires left { key.old.used < all_leaves key.old.key }
    ensures signatures { IfOk result (λ fields. fields.items ≡ group_signatures key.old.key key.old.used (map body_text bodies.now)) }
    ensures signs { IfOk result (λ fields. EachSigns (key_public key.old.key) (map body_text bodies.now) fields.items) }
    ensures fit { IfOk result (λ fields. IsTrue (list_all field_fits fields.items)) }
    ensures same_key { key.new.key ≡ key.old.key }
    ensures one_more { OnOk result (key.new.used ≡ key.old.used + 1) }
    ensures err { OnErr result (key.new.used ≡ key.old.used) }
{
    match sign_group(alloc, key, bodies) {
        Ok(fields) => Ok(fields),
        Err(SignAnswer::Spent) => unreachable!(),
        Err(SignAnswer::Want) => Err(Want),
    }
}

// The signatures of all groups, where a leaf is left for each.
fn sign_groups(
    alloc: Global,
    key: &mut KeyState,
    shared: bool,
    groups: usize,
    bodies: &[Body],
) -> Result<Vec<Bytes>, Want>
    requires groups { groups ≡ groups_for (group_size shared) (length bodies.now) }
    requires left { key.old.used + groups ≤ all_leaves key.old.key }
    requires spelled { IsTrue (list_all body_fits bodies.now) }
    ensures signatures { IfOk result (λ fields. fields.items
        ≡ entry_signatures key.old.key key.old.used (group_size shared) (map body_text bodies.now)) }
    ensures signs { IfOk result (λ fields. EachSigns (key_public key.old.key) (map body_text bodies.now) fields.items) }
    ensures fit { IfOk result (λ fields. IsTrue (list_all field_fits fields.items)) }
    ensures same_key { key.new.key ≡ key.old.key }
    ensures used { OnOk result (key.new.used ≡ key.old.used + groups) }
    ensures no_leaf_back { key.old.used ≤ key.new.used }
    ensures no_leaf_more { key.new.used ≤ key.old.used + groups }
{
    let mut fields = Vec::with_capacity(alloc, bodies.len())?;
    for number in 0..groups {
        let group = group_of(bodies, shared, number);
        let mut signed = sign_left(alloc, key, group)?;
        fields.append(&mut signed)?;
    }
    Ok(fields)
}

/// The signatures of all bodies of an entry, in their order: the bodies are cut into groups, of `MOST_SHARING` where leaves are
/// shared, else of one, the last one shorter, and each group is signed with the next leaf. Where too few leaves are left nothing is
/// signed. After want of memory nothing was given away; leaves may be used then, though no more than the groups are.
pub fn sign_entry(
    alloc: Global,
    key: &mut KeyState,
    shared: bool,
    bodies: &[Body],
) -> Result<Vec<Bytes>, SignAnswer>
    requires { IsTrue (list_all body_fits bodies.now) }
    ensures signatures { IfOk result (λ fields. fields.items
        ≡ entry_signatures key.old.key key.old.used (group_size shared) (map body_text bodies.now)) }
    ensures signs { IfOk result (λ fields. EachSigns (key_public key.old.key) (map body_text bodies.now) fields.items) }
    ensures fit { IfOk result (λ fields. IsTrue (list_all field_fits fields.items)) }
    ensures same_key { key.new.key ≡ key.old.key }
    ensures used { OnOk result (key.new.used ≡ key.old.used + groups_for (group_size shared) (length bodies.now)) }
    ensures spent { IsErrOf result SignAnswer.Spent
        ↔ (all_leaves key.old.key < key.old.used + groups_for (group_size shared) (length bodies.now)) }
    ensures spent_same { IsErrOf result SignAnswer.Spent → key.new ≡ key.old }
    ensures no_leaf_back { key.old.used ≤ key.new.used }
    ensures no_leaf_more { key.new.used ≤ key.old.used + groups_for (group_size shared) (length bodies.now) }
{
    let groups = groups_for(shared, bodies.len());
    if key.left() < groups as u64 {
        return Err(SignAnswer::Spent);
    }
    Ok(sign_groups(alloc, key, shared, groups, bodies)?)
}
