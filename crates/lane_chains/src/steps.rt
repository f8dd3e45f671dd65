// One step of eight chains.

ghost use Rattle.std.specs.Prelude.{◌≡◌, ℕ, ◌<◌, ◌^◌, [], ◌∷◌, slice_index};
ghost use Rattle.sha2.specs.Sha256.{digest_bytes, initial_hash_256, rounds, sha256};
ghost use Rattle.lane_chains.specs.Lanes.{lane, id_lane, column};
ghost use Rattle.lane_chains.specs.Steps.{same_word, head_word, joined_word, last_word, key_words, block_words, step_text};

use crate::lanes::{add, shifted_left, shifted_right, splat};
use crate::rounds::{K32, Room, compressed, first_state, round};
use std::simd::u32x8 as Words;

// The words that each lane has.
#[inline(always)]
fn each_word(x: Words) -> Words
    ensures { (j : ℕ) → j < 8 → slice_index result j ≡ same_word (slice_index x j) }
{
    x
}

// Two bytes of `chain`, one of `step`, and the high byte of `a`.
#[inline(always)]
fn head_word(chain: Words, step: Words, a: Words) -> Words
    requires chain { (j : ℕ) → j < 8 → slice_index chain j < 2 ^ 16 }
    requires step { (j : ℕ) → j < 8 → slice_index step j < 2 ^ 8 }
    ensures { (j : ℕ) → j < 8 → slice_index result j
        ≡ head_word (slice_index chain j) (slice_index step j) (slice_index a j) }
{
    add(
        add(shifted_left(chain, 16), shifted_left(step, 8)),
        shifted_right(a, 24),
    )
}

// The low three bytes of `a`, and then the high byte of `b`.
#[inline(always)]
fn joined_word(a: Words, b: Words) -> Words
    ensures { (j : ℕ) → j < 8 → slice_index result j ≡ joined_word (slice_index a j) (slice_index b j) }
{
    add(shifted_left(a, 8), shifted_right(b, 24))
}

// The low three bytes of `a`, and the padding's first.
#[inline(always)]
fn last_word(a: Words) -> Words
    ensures { (j : ℕ) → j < 8 → slice_index result j ≡ last_word (slice_index a j) }
{
    add(shifted_left(a, 8), splat(0x80))
}

/// The words of one identifier, the same in each lane.
#[inline(always)]
pub(crate) fn same_id(id: &[u32; 4]) -> [Words; 4]
    ensures words { (j : ℕ) → j < 8 → id_lane j result
        ≡ slice_index id.now 0 ∷ slice_index id.now 1 ∷ slice_index id.now 2 ∷ slice_index id.now 3 ∷ [] }
    ensures bytes { (j : ℕ) → j < 8 → digest_bytes (id_lane j result) 4 ≡ digest_bytes id.now 4 }
{
    [splat(id[0]), splat(id[1]), splat(id[2]), splat(id[3])]
}

// The words of the steps' blocks.
#[inline(always)]
fn block_words(ids: [Words; 4], q: Words, chains: Words, steps: Words, v: [Words; 8]) -> [Words; 16]
    requires chains { (j : ℕ) → j < 8 → slice_index chains j < 2 ^ 16 }
    requires steps { (j : ℕ) → j < 8 → slice_index steps j < 2 ^ 8 }
    ensures { (j : ℕ) → j < 8 → column j result
        ≡ block_words (id_lane j ids) (slice_index q j) (slice_index chains j) (slice_index steps j) (lane j v) }
{
    [
        each_word(ids[0]),
        each_word(ids[1]),
        each_word(ids[2]),
        each_word(ids[3]),
        each_word(q),
        head_word(chains, steps, v[0]),
        joined_word(v[0], v[1]),
        joined_word(v[1], v[2]),
        joined_word(v[2], v[3]),
        joined_word(v[3], v[4]),
        joined_word(v[4], v[5]),
        joined_word(v[5], v[6]),
        joined_word(v[6], v[7]),
        last_word(v[7]),
        splat(0),
        splat(440),
    ]
}

/// The working variables after the five rounds that all steps of a key's chains begin with: those of
/// the words of its identifier and of its leaf's number. Each lane has a key of its own.
pub(crate) fn begun_keys(ids: [Words; 4], q: Words) -> [Words; 8]
    ensures { (j : ℕ) → j < 8 → lane j result ≡ rounds initial_hash_256 (key_words (id_lane j ids) (slice_index q j)) 5 }
{
    let v = round(first_state(), K32[0], each_word(ids[0]));
    let v = round(v, K32[1], each_word(ids[1]));
    let v = round(v, K32[2], each_word(ids[2]));
    let v = round(v, K32[3], each_word(ids[3]));
    round(v, K32[4], each_word(q))
}

/// The same, where all lanes have one identifier.
pub(crate) fn begun_each(id: &[u32; 4], q: Words) -> [Words; 8]
    ensures { (j : ℕ) → j < 8 → lane j result ≡ rounds initial_hash_256 (key_words id.now (slice_index q j)) 5 }
{
    begun_keys(same_id(id), q)
}

/// A step of eight chains: lane by lane the digest of the value, under the lane's identifier and leaf,
/// the chain's number and the step's. `begun` is what `begun_keys` gives.
pub(crate) fn step_keys(
    begun: [Words; 8],
    ids: [Words; 4],
    q: Words,
    chains: Words,
    steps: Words,
    v: [Words; 8],
    room: &mut Room,
) -> [Words; 8]
    requires begun { (j : ℕ) → j < 8 → lane j begun
        ≡ rounds initial_hash_256 (key_words (id_lane j ids) (slice_index q j)) 5 }
    requires chains { (j : ℕ) → j < 8 → slice_index chains j < 2 ^ 16 }
    requires steps { (j : ℕ) → j < 8 → slice_index steps j < 2 ^ 8 }
    ensures { (j : ℕ) → j < 8 → digest_bytes (lane j result) 8
        ≡ sha256 (step_text (id_lane j ids) (slice_index q j) (slice_index chains j) (slice_index steps j) (lane j v)) }
{
    compressed(begun, block_words(ids, q, chains, steps, v), room)
}

/// The same, where all lanes have one identifier. `begun` is what `begun_each` gives.
#[inline(always)]
pub(crate) fn step_each(
    begun: [Words; 8],
    id: &[u32; 4],
    q: Words,
    chains: Words,
    steps: Words,
    v: [Words; 8],
    room: &mut Room,
) -> [Words; 8]
    requires begun { (j : ℕ) → j < 8 → lane j begun ≡ rounds initial_hash_256 (key_words id.now (slice_index q j)) 5 }
    requires chains { (j : ℕ) → j < 8 → slice_index chains j < 2 ^ 16 }
    requires steps { (j : ℕ) → j < 8 → slice_index steps j < 2 ^ 8 }
    ensures { (j : ℕ) → j < 8 → digest_bytes (lane j result) 8
        ≡ sha256 (step_text id.now (slice_index q j) (slice_index chains j) (slice_index steps j) (lane j v)) }
{
    step_keys(begun, same_id(id), q, chains, steps, v, room)
}
