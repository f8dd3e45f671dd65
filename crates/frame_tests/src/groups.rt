ghost use Rattle.std.specs.Prelude.{◌≤◌, length};

use checked_frames::{sign_entry, sign_group, signs};
use hash_signatures::{KeyState, Ots, SignAnswer, verify};
use message_forms::{batch_text, text_of};
use message_types::{Body, Ping};
use plain_lists::Bytes;
use sha2::{Digest, Sha256};
use std::alloc::Global;
use std::test::Fail;
use wire_parts::{put_bytes, put_u16};

// A public key with the fields of three pings that its first leaf signed.
#[derive(Drop)]
struct Group {
    public: [u8; 60],
    fields: Vec<Bytes>,
}

fn three_fields(alloc: Global, key: &mut KeyState) -> Result<Vec<Bytes>, SignAnswer> {
    let bodies = [
        Body::Ping(Ping { number: 1 }),
        Body::Ping(Ping { number: 2 }),
        Body::Ping(Ping { number: 3 }),
    ];
    sign_group(alloc, key, &bodies)
}

fn group_of_three(alloc: Global, heights: &[u32]) -> Result<Group, Fail> {
    let mut key = KeyState::make(alloc, &[7; 32], &[9; 16], heights, Ots::W4)?;
    let public = key.public();
    let fields = three_fields(alloc, &mut key)?;
    Ok(Group { public, fields })
}

fn text_of_ping(alloc: Global, number: u64) -> Result<Vec<u8>, Fail> {
    let text = text_of(alloc, &Body::Ping(Ping { number }))?;
    Ok(text)
}

fn hash(first: u8, left: &[u8], right: &[u8]) -> [u8; 32] {
    let mut hasher = Sha256::new();
    hasher.update([first]);
    hasher.update(left);
    hasher.update(right);
    hasher.finalize()
}

fn leaf(alloc: Global, number: u64) -> Result<[u8; 32], Fail> {
    let text = text_of_ping(alloc, number)?;
    Ok(hash(0, &text, &[]))
}

// The worked example of a group: the root of three leaves a, b and c is H(01 || H(01 || a || b) || c).
#[test]
fn three_bodies_share_a_leaf(rt: HostRuntime) -> Result<(), Fail> {
    let a = leaf(rt.alloc(), 1)?;
    let b = leaf(rt.alloc(), 2)?;
    let c = leaf(rt.alloc(), 3)?;
    let joined = hash(1, &a, &b);
    let group = group_of_three(rt.alloc(), &[5, 5, 5])?;
    assert!(rt; group.fields.len() == 3);
    let first = group.fields[0].as_slice();
    let last = group.fields[2].as_slice();
    assert!(rt; first.len() == 7234);
    assert!(rt; last.len() == 7202);
    assert!(rt; first[10..42] == b[..]);
    assert!(rt; first[42..74] == c[..]);
    assert!(rt; last[10..42] == joined[..]);
    assert!(rt;
        verify(
            &group.public,
            &batch_text(3, &hash(1, &joined, &c)),
            &last[42..]
        )
    );
    Ok(())
}

// The bytes with another one at a place.
fn altered(alloc: Global, bytes: &[u8], at: usize, value: u8) -> Result<Vec<u8>, Fail> {
    let mut copy = Vec::from_slice(alloc, bytes)?;
    if let Some(byte) = copy.get_mut(at) {
        *byte = value;
    }
    Ok(copy)
}

// Whether the first of three bodies is signed by its field with another byte at a place.
fn signs_altered(alloc: Global, at: usize, value: u8) -> Result<bool, Fail> {
    let group = group_of_three(alloc, &[5])?;
    let field = group.fields.first().ok_or("no field")?;
    let bytes = altered(alloc, field.as_slice(), at, value)?;
    let text = text_of_ping(alloc, 1)?;
    Ok(signs(&group.public, &text, &bytes))
}

#[test]
fn another_place_or_count_signs_nothing(rt: HostRuntime) -> Result<(), Fail> {
    assert!(rt; signs_altered(rt.alloc(), 5, 0)?, "as it was");
    assert!(rt; !signs_altered(rt.alloc(), 5, 3)?, "place 3");
    assert!(rt; !signs_altered(rt.alloc(), 7, 2)?, "two bodies");
    assert!(rt; !signs_altered(rt.alloc(), 7, 33)?, "33 bodies");
    Ok(())
}

// The same field with a third hash behind the two of its path.
fn with_one_hash_more(alloc: Global, field: &[u8]) -> Result<Vec<u8>, Fail>
    requires { 74 ≤ length field.now }
{
    let mut longer = Vec::new(alloc);
    put_bytes(&mut longer, &field[..8])?;
    put_u16(&mut longer, 3)?;
    put_bytes(&mut longer, &field[10..74])?;
    put_bytes(&mut longer, &[0; 32])?;
    put_bytes(&mut longer, &field[74..])?;
    Ok(longer)
}

#[test]
fn a_hash_more_signs_nothing(rt: HostRuntime) -> Result<(), Fail> {
    let group = group_of_three(rt.alloc(), &[5])?;
    assert!(rt; group.fields.len() == 3);
    let field = group.fields[0].as_slice();
    assert!(rt; field.len() == 2426);
    let longer = with_one_hash_more(rt.alloc(), field)?;
    let text = text_of_ping(rt.alloc(), 1)?;
    assert!(rt; !signs(&group.public, &text, &longer));
    Ok(())
}

// Whether the last leaf signs one body, and the key then nothing more.
fn is_spent_after_one(alloc: Global) -> Result<bool, Fail> {
    let mut key = KeyState::resume(alloc, &[1; 32], &[1; 16], &[5], Ots::W4, 31)?;
    let fields = sign_group(alloc, &mut key, &[Body::Ping(Ping { number: 1 })])?;
    let more = three_fields(alloc, &mut key);
    Ok(fields.len() == 1 && matches!(more, Err(SignAnswer::Spent)))
}

#[test]
fn a_spent_key_signs_no_group(rt: HostRuntime) -> Result<(), Fail> {
    assert!(rt; is_spent_after_one(rt.alloc())?);
    Ok(())
}

// The number of signatures of three bodies and of no body, and of the leaves that they use, where leaves are shared or not.
fn entry_counts(alloc: Global, shared: bool) -> Result<(usize, u64), Fail> {
    let bodies = [
        Body::Ping(Ping { number: 1 }),
        Body::Ping(Ping { number: 2 }),
        Body::Ping(Ping { number: 3 }),
    ];
    let mut key = KeyState::make(alloc, &[7; 32], &[9; 16], &[5], Ots::W4)?;
    let none = sign_entry(alloc, &mut key, shared, &[])?;
    let fields = sign_entry(alloc, &mut key, shared, &bodies)?;
    Ok((none.len() + fields.len(), 32 - key.left()))
}

#[test]
fn an_entry_uses_a_leaf_a_group(rt: HostRuntime) -> Result<(), Fail> {
    assert!(rt; entry_counts(rt.alloc(), true)? == (3, 1));
    assert!(rt; entry_counts(rt.alloc(), false)? == (3, 3));
    Ok(())
}
