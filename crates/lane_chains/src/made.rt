// Keys that are made from a seed, those of eight leaves at once: lane j is the key of the j-th leaf, from its chains to its
// hash. All lanes have the same chain and step, so none waits for another, and no value leaves its lane.

ghost use Rattle.std.specs.Prelude.{◌≡◌, ℕ, ◌<◌, ◌≤◌, ◌+◌, ◌-◌, ◌*◌, ◌%◌, ◌^◌, ◌++◌, [], take, drop, slice_index, slice_index_or};
ghost use Rattle.sha2.specs.Sha256.{compress, digest_bytes, initial_hash_256, rounds};
ghost use Rattle.lane_chains.specs.Lanes.{lane, column};
ghost use Rattle.lane_chains.specs.Steps.{key_words};
ghost use Rattle.lane_chains.specs.Chains.{chain, value_at};
ghost use Rattle.lane_chains.specs.Made.{made_end, made_key, head, ending, halves_joined, pair_words};

use crate::chains::{VALUES_LEN, write_value};
use crate::lanes::{add, shifted_left, shifted_right, splat};
use crate::rounds::{Room, compressed_after, first_state, new_room};
use crate::steps::{begun_each, step_each};
use crate::words::{gathered_values, id_words, value_in};
use std::simd::u32x8 as Words;

// The numbers of eight leaves.
fn leaves_from(first: u32) -> Words
    requires { first + 8 ≤ 2 ^ 32 }
    ensures { (j : ℕ) → j < 8 → slice_index result j ≡ first + j }
{
    Words::from_array([
        first,
        first + 1,
        first + 2,
        first + 3,
        first + 4,
        first + 5,
        first + 6,
        first + 7,
    ])
}

// Steps `from` to `to - 1` of chain `i` of eight leaves.
fn run_each(
    begun: [Words; 8],
    id: &[u32; 4],
    q: Words,
    i: u16,
    from: u16,
    to: u16,
    start: [Words; 8],
    room: &mut Room,
) -> [Words; 8]
    requires begun { (j : ℕ) → j < 8 → lane j begun ≡ rounds initial_hash_256 (key_words id.now (slice_index q j)) 5 }
    requires order { from ≤ to }
    requires top { to ≤ 256 }
    ensures { (j : ℕ) → j < 8 → digest_bytes (lane j result) 8
        ≡ chain (digest_bytes id.now 4) (slice_index q j) i from (to - from) (digest_bytes (lane j start) 8) }
{
    let chains = splat(u32::from(i));
    let mut v = start;
    'steps: for step in from..to {
        let next = step_each(begun, id, q, chains, splat(u32::from(step)), v, room);
        v = next;
    }
    v
}

// The end of chain `i` of eight leaves, from the seed that each lane has.
fn end_each(
    begun: [Words; 8],
    id: &[u32; 4],
    q: Words,
    i: u16,
    top: u16,
    seeds: [Words; 8],
    room: &mut Room,
) -> [Words; 8]
    requires begun { (j : ℕ) → j < 8 → lane j begun ≡ rounds initial_hash_256 (key_words id.now (slice_index q j)) 5 }
    requires top { top ≤ 256 }
    ensures { (j : ℕ) → j < 8 → digest_bytes (lane j result) 8
        ≡ made_end (digest_bytes id.now 4) (slice_index q j) top (digest_bytes (lane j seeds) 8) i }
{
    let start = run_each(begun, id, q, i, 255, 256, seeds, room);
    run_each(begun, id, q, i, 0, top, start, room)
}

// The low two bytes of `a`, and then the high two of `b`.
#[inline(always)]
fn halves_joined(a: Words, b: Words) -> Words
    ensures { (j : ℕ) → j < 8 → slice_index result j ≡ halves_joined (slice_index a j) (slice_index b j) }
{
    add(shifted_left(a, 16), shifted_right(b, 16))
}

// The words of the blocks of the last 22 bytes of values, whole values, and the first 10 bytes of third ones.
#[inline(always)]
fn pair_words(p: [Words; 8], a: [Words; 8], b: [Words; 8]) -> [Words; 16]
    ensures { (j : ℕ) → j < 8 → column j result ≡ pair_words (lane j p) (lane j a) (lane j b) }
{
    [
        halves_joined(p[2], p[3]),
        halves_joined(p[3], p[4]),
        halves_joined(p[4], p[5]),
        halves_joined(p[5], p[6]),
        halves_joined(p[6], p[7]),
        halves_joined(p[7], a[0]),
        halves_joined(a[0], a[1]),
        halves_joined(a[1], a[2]),
        halves_joined(a[2], a[3]),
        halves_joined(a[3], a[4]),
        halves_joined(a[4], a[5]),
        halves_joined(a[5], a[6]),
        halves_joined(a[6], a[7]),
        halves_joined(a[7], b[0]),
        halves_joined(b[0], b[1]),
        halves_joined(b[1], b[2]),
    ]
}

/// The hash values after one block more: the last 22 bytes of `p`, `a`, and the first 10 bytes of `b`.
pub(crate) fn take_pair(
    h: [Words; 8],
    p: [Words; 8],
    a: [Words; 8],
    b: [Words; 8],
    room: &mut Room,
) -> [Words; 8]
    ensures { (j : ℕ) → j < 8 → lane j result ≡ compress (lane j h) (drop 10 (digest_bytes (lane j p) 8)
        ++ (digest_bytes (lane j a) 8 ++ take 10 (digest_bytes (lane j b) 8))) }
{
    compressed_after(h, pair_words(p, a, b), room)
}

/// What a key's hash begins with.
#[tactic(auto, unfolding(wire_parts::specs::Fields::u16_bytes, wire_parts::specs::Fields::u32_bytes))]
pub(crate) fn head(id: &[u8; 16], q: u32, tag: u16) -> [u8; 32]
    ensures { result ≡ head id.now q tag }
{
    let mut bytes = [0; 32];
    let (none, rest) = bytes.split_at_mut(10);
    let (id_part, rest) = rest.split_at_mut(16);
    let (q_part, tag_part) = rest.split_at_mut(4);
    none.copy_from_slice(&[0; 10]);
    id_part.copy_from_slice(id);
    q_part.copy_from_slice(&q.to_be_bytes());
    tag_part.copy_from_slice(&tag.to_be_bytes());
    bytes
}

// What the hashes of eight leaves' keys begin with.
fn heads(id: &[u8; 16], q: u32, tag: u16) -> [Words; 8]
    requires { q + 8 ≤ 2 ^ 32 }
    ensures { (j : ℕ) → j < 8 → digest_bytes (lane j result) 8 ≡ head id.now (q + j) tag }
{
    let mut values = [0; VALUES_LEN];
    'leaves: for j in 0..8usize {
        write_value(&mut values, j, &head(id, q + j as u32, tag));
    }
    gathered_values(&values, &[0, 1, 2, 3, 4, 5, 6, 7])
}

/// The padding of a message of `len` bytes.
pub(crate) fn ending(len: u64) -> [u8; 32]
    requires { len < 2 ^ 32 }
    ensures { result ≡ ending len }
{
    let mut bytes = [0; 32];
    let (mark, rest) = bytes.split_at_mut(2);
    let (count, none) = rest.split_at_mut(8);
    mark.copy_from_slice(&[0x80, 0]);
    count.copy_from_slice(&(len * 8).to_be_bytes());
    none.copy_from_slice(&[0; 22]);
    bytes
}

/// A value in each lane.
pub(crate) fn same_value(value: &[u8; 32]) -> [Words; 8]
    ensures { (j : ℕ) → j < 8 → digest_bytes (lane j result) 8 ≡ value.now }
{
    gathered_values(value, &[0; 8])
}

// The values in all lanes.
fn all_values(v: &[Words; 8]) -> [[u8; 32]; 8]
    ensures { (j : ℕ) → j < 8 → slice_index_or result j [] ≡ digest_bytes (lane j v.now) 8 }
{
    [
        value_in(v, 0),
        value_in(v, 1),
        value_in(v, 2),
        value_in(v, 3),
        value_in(v, 4),
        value_in(v, 5),
        value_in(v, 6),
        value_in(v, 7),
    ]
}

/// The public keys of the one-time keys of the leaves `q` to `q + 7` that are made from a seed: chain `i` starts with what step
/// 255 makes of the seed, and has the steps 0 to `top - 1`; the key is the hash of the ends of `count` chains. It takes no memory.
pub fn made_keys(
    id: &[u8; 16],
    q: u32,
    tag: u16,
    seed: &[u8; 32],
    count: u16,
    top: u16,
) -> [[u8; 32]; 8]
    requires leaves { q + 8 ≤ 2 ^ 32 }
    requires odd { count % 2 ≡ 1 }
    requires few { count ≤ 265 }
    requires top { top ≤ 256 }
    ensures { (j : ℕ) → j < 8 → slice_index_or result j [] ≡ made_key id.now (q + j) tag top seed.now count }
{
    let words = id_words(id);
    let leaves = leaves_from(q);
    let begun = begun_each(&words, leaves);
    let seeds = same_value(seed);
    let padding = same_value(&ending(22 + 32 * u64::from(count)));
    let mut room = new_room();
    let mut h = first_state();
    let mut last = heads(id, q, tag);
    'pairs: for i in 0..count / 2 {
        let a = end_each(begun, &words, leaves, 2 * i, top, seeds, &mut room);
        let b = end_each(begun, &words, leaves, 2 * i + 1, top, seeds, &mut room);
        let next = take_pair(h, last, a, b, &mut room);
        h = next;
        last = b;
    }
    let end = end_each(begun, &words, leaves, count - 1, top, seeds, &mut room);
    all_values(&take_pair(h, last, end, padding, &mut room))
}
