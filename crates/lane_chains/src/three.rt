// Three keys at once: the chains of all of them are sorted together, so that few lanes wait for another, and the hashes
// of their ends are made side by side.

ghost use Rattle.std.specs.Prelude.{◌≡◌, ◌≢◌, ℕ, ◌<◌, ◌≤◌, ◌+◌, ◌*◌, ◌/◌, ◌%◌, ◌^◌, [], length, slice_index, slice_index_or, true, false};
ghost use Rattle.sha2.specs.Sha256.{digest_bytes, word_at};
ghost use Rattle.lane_chains.specs.Lanes.{lane, id_lane};
ghost use Rattle.lane_chains.specs.Chains.{value_at, AreSteps};
ghost use Rattle.lane_chains.specs.Marks.{AreEnded};
ghost use Rattle.lane_chains.specs.Made.{head};
ghost use Rattle.lane_chains.specs.Three.{of_three, end_of_three, key_of_three};

use crate::chains::{
    MOST_CHAINS, VALUES_LEN, by_length, group_at, put_ends, read_value, run_alone, write_value,
};
use crate::lanes::splat;
use crate::made::{ending, head, same_value, take_pair};
use crate::rounds::{Room, first_state, new_room};
use crate::runs::{chosen, most_steps, run_lanes};
use crate::words::{gathered, gathered_values, id_words, load_be, value_in};
use std::simd::u32x8 as Words;

/// A one-time key: the identifier of its key pair, and its leaf.
#[derive(Clone, Copy)]
pub struct KeyAt {
    pub id: [u8; 16],
    pub q: u32,
}

// Which of the three keys has the chain of each place.
fn keys_of(group: &[u16; 8]) -> Words
    ensures { (j : ℕ) → j < 8 → slice_index result j ≡ slice_index group.now j % 3 }
{
    let mut words = [0; 8];
    'lanes: for j in 0..8usize {
        words[j] = u32::from(group[j] % 3);
    }
    Words::from_array(words)
}

// Which of its key's chains that is.
fn numbers_of(group: &[u16; 8]) -> Words
    ensures value { (j : ℕ) → j < 8 → slice_index result j ≡ slice_index group.now j / 3 }
    ensures fits { (j : ℕ) → j < 8 → slice_index result j < 2 ^ 16 }
{
    let mut words = [0; 8];
    'lanes: for j in 0..8usize {
        words[j] = u32::from(group[j] / 3);
    }
    Words::from_array(words)
}

// `a` in the lanes of the first key, `b` in those of the second, and `c` in the others.
#[inline(always)]
fn word_of(keys: Words, a: u32, b: u32, c: u32) -> Words
    ensures { (j : ℕ) → j < 8 → slice_index result j ≡ of_three a b c (slice_index keys j) }
{
    chosen(
        keys,
        splat(1),
        splat(a),
        chosen(keys, splat(2), splat(b), splat(c)),
    )
}

// The words of each lane's identifier.
fn ids_of(keys: Words, a: &KeyAt, b: &KeyAt, c: &KeyAt) -> [Words; 4]
    ensures { (j : ℕ) → j < 8 → digest_bytes (id_lane j result) 4
        ≡ (of_three a.now b.now c.now (slice_index keys j)).id }
{
    let x = id_words(&a.id);
    let y = id_words(&b.id);
    let z = id_words(&c.id);
    [
        word_of(keys, x[0], y[0], z[0]),
        word_of(keys, x[1], y[1], z[1]),
        word_of(keys, x[2], y[2], z[2]),
        word_of(keys, x[3], y[3], z[3]),
    ]
}

// The ends of eight chains, by their places.
fn ends_at(
    a: &KeyAt,
    b: &KeyAt,
    c: &KeyAt,
    from: &[u16],
    to: &[u16],
    starts: &[u8],
    group: &[u16; 8],
    room: &mut Room,
) -> [Words; 8]
    requires steps { AreSteps from.now to.now }
    requires starts { 32 * length from.now ≤ length starts.now }
    requires group { (j : ℕ) → j < 8 → slice_index group.now j < length from.now }
    ensures { (j : ℕ) → j < 8 → digest_bytes (lane j result) 8
        ≡ end_of_three a.now b.now c.now from.now to.now starts.now (slice_index group.now j) }
{
    let turns = most_steps(from, to, group);
    let start = gathered_values(starts, group);
    let keys = keys_of(group);
    run_lanes(
        ids_of(keys, a, b, c),
        word_of(keys, a.q, b.q, c.q),
        numbers_of(group),
        gathered(from, group),
        gathered(to, group),
        turns,
        start,
        room,
    )
}

// Runs the chains in lanes, and marks those that it ran.
fn run_together(
    a: &KeyAt,
    b: &KeyAt,
    c: &KeyAt,
    from: &[u16],
    to: &[u16],
    starts: &[u8],
    ends: &mut [u8; VALUES_LEN],
    done: &mut [bool; MOST_CHAINS],
)
    requires steps { AreSteps from.now to.now }
    requires starts { 32 * length from.now ≤ length starts.now }
    ensures { AreEnded (end_of_three a.now b.now c.now from.now to.now starts.now) done.old ends.old
        → AreEnded (end_of_three a.now b.now c.now from.now to.now starts.now) done.new ends.new }
{
    let order = by_length(from, to);
    let mut room = new_room();
    'groups: for g in 0..from.len().div_ceil(8) {
        let group = group_at(&order, g);
        let v = ends_at(a, b, c, from, to, starts, &group, &mut room);
        put_ends(&v, &group, ends, done);
    }
}

// The key that a chain belongs to.
fn key_at(a: &KeyAt, b: &KeyAt, c: &KeyAt, k: u16) -> KeyAt
    ensures { result ≡ of_three a.now b.now c.now k }
{
    match k {
        0 => *a,
        1 => *b,
        _ => *c,
    }
}

// Runs chain `n` of all by itself, if it isn't marked.
fn end_one(
    a: &KeyAt,
    b: &KeyAt,
    c: &KeyAt,
    from: &[u16],
    to: &[u16],
    starts: &[u8],
    n: u16,
    done: bool,
    ends: &mut [u8; VALUES_LEN],
)
    requires steps { AreSteps from.now to.now }
    requires starts { 32 * length from.now ≤ length starts.now }
    requires chain { n < length from.now }
    ensures marked { done ≡ true → ends.new ≡ ends.old }
    ensures ended { done ≡ false
        → value_at ends.new n ≡ end_of_three a.now b.now c.now from.now to.now starts.now n }
    ensures others { (k : ℕ) → k ≢ n → value_at ends.new k ≡ value_at ends.old k }
{
    if done {
        return;
    }
    let at = usize::from(n);
    let key = key_at(a, b, c, n % 3);
    let start = read_value(starts, at);
    let end = run_alone(&key.id, key.q, n / 3, from[at], to[at], &start);
    write_value(ends, at, &end);
}

// Runs the chains of all three keys.
fn run_three(
    a: &KeyAt,
    b: &KeyAt,
    c: &KeyAt,
    from: &[u16],
    to: &[u16],
    starts: &[u8],
    ends: &mut [u8; VALUES_LEN],
)
    requires steps { AreSteps from.now to.now }
    requires starts { 32 * length from.now ≤ length starts.now }
    ensures { (n : ℕ) → n < length from.now
        → value_at ends.new n ≡ end_of_three a.now b.now c.now from.now to.now starts.now n }
{
    let mut done = [false; MOST_CHAINS];
    run_together(a, b, c, from, to, starts, ends, &mut done);
    'chains: for n in 0..from.len() {
        end_one(a, b, c, from, to, starts, n as u16, done[n], ends);
    }
}

// Word `w` of the values of chain `i` of each key.
#[inline(always)]
fn end_word(values: &[u8], i: u16, w: usize) -> Words
    requires inside { 96 * i + 96 ≤ length values.now }
    requires word { w < 8 }
    ensures { (k : ℕ) → k < 3 → slice_index result k ≡ word_at values.now (32 * (3 * i + k) + 4 * w) }
{
    let at = 96 * usize::from(i) + 4 * w;
    let x = load_be(values, at);
    let y = load_be(values, at + 32);
    let z = load_be(values, at + 64);
    Words::from_array([x, y, z, 0, 0, 0, 0, 0])
}

// The values of chain `i` of each key, in the first three lanes.
fn ends_of(values: &[u8], i: u16) -> [Words; 8]
    requires { 96 * i + 96 ≤ length values.now }
    ensures { (k : ℕ) → k < 3 → digest_bytes (lane k result) 8 ≡ value_at values.now (3 * i + k) }
{
    [
        end_word(values, i, 0),
        end_word(values, i, 1),
        end_word(values, i, 2),
        end_word(values, i, 3),
        end_word(values, i, 4),
        end_word(values, i, 5),
        end_word(values, i, 6),
        end_word(values, i, 7),
    ]
}

// What the hashes of the keys begin with.
fn heads_of(a: &KeyAt, b: &KeyAt, c: &KeyAt, tag: u16) -> [Words; 8]
    ensures { (k : ℕ) → k < 3 → digest_bytes (lane k result) 8
        ≡ head (of_three a.now b.now c.now k).id (of_three a.now b.now c.now k).q tag }
{
    let mut values = [0; VALUES_LEN];
    write_value(&mut values, 0, &head(&a.id, a.q, tag));
    write_value(&mut values, 1, &head(&b.id, b.q, tag));
    write_value(&mut values, 2, &head(&c.id, c.q, tag));
    gathered_values(&values, &[0, 1, 2, 0, 0, 0, 0, 0])
}

// The values in the first three lanes.
fn three_values(v: &[Words; 8]) -> [[u8; 32]; 3]
    ensures { (k : ℕ) → k < 3 → slice_index_or result k [] ≡ digest_bytes (lane k v.now) 8 }
{
    [value_in(v, 0), value_in(v, 1), value_in(v, 2)]
}

// The hashes of the ends of each key's chains, two of its ends a block.
fn keys_of_ends(
    a: &KeyAt,
    b: &KeyAt,
    c: &KeyAt,
    tag: u16,
    count: u16,
    ends: &[u8; VALUES_LEN],
) -> [[u8; 32]; 3]
    requires odd { count % 2 ≡ 1 }
    requires few { 3 * count ≤ 265 }
    ensures { (k : ℕ) → k < 3 → slice_index_or result k []
        ≡ key_of_three a.now b.now c.now tag count (value_at ends.now) k }
{
    let padding = same_value(&ending(22 + 32 * u64::from(count)));
    let mut room = new_room();
    let mut h = first_state();
    let mut last = heads_of(a, b, c, tag);
    'pairs: for i in 0..count / 2 {
        let x = ends_of(ends, 2 * i);
        let y = ends_of(ends, 2 * i + 1);
        let next = take_pair(h, last, x, y, &mut room);
        h = next;
        last = y;
    }
    let end = ends_of(ends, count - 1);
    three_values(&take_pair(h, last, end, padding, &mut room))
}

/// The keys that the chains of three one-time keys end in, each the hash of its ends. Every key has `count` chains, and all
/// stand in one list: chain `n` of it is chain `n / 3` of key `n % 3`, and goes from step `from[n]` up to step `to[n]`, from
/// value `n` of the starts. It takes no memory.
pub fn three_keys(
    a: &KeyAt,
    b: &KeyAt,
    c: &KeyAt,
    tag: u16,
    count: u16,
    from: &[u16],
    to: &[u16],
    starts: &[u8],
) -> [[u8; 32]; 3]
    requires steps { AreSteps from.now to.now }
    requires starts { 32 * length from.now ≤ length starts.now }
    requires count { length from.now ≡ 3 * count }
    requires odd { count % 2 ≡ 1 }
    ensures { (k : ℕ) → k < 3 → slice_index_or result k []
        ≡ key_of_three a.now b.now c.now tag count (end_of_three a.now b.now c.now from.now to.now starts.now) k }
{
    let mut ends = [0; VALUES_LEN];
    run_three(a, b, c, from, to, starts, &mut ends);
    keys_of_ends(a, b, c, tag, count, &ends)
}
