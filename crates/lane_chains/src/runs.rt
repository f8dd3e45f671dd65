// Eight chains at once.

ghost use Rattle.std.specs.Prelude.{◌≡◌, ℕ, ◌<◌, ◌≤◌, ◌+◌, ◌-◌, ◌*◌, ◌%◌, ◌^◌, length, slice_index, cond, ltb};
ghost use Rattle.sha2.specs.Sha256.{digest_bytes};
ghost use Rattle.lane_chains.specs.Lanes.{lane, id_lane};
ghost use Rattle.lane_chains.specs.Chains.{chain, end_of, AreSteps};

use crate::lanes::splat;
use crate::rounds::Room;
use crate::steps::{begun_keys, same_id, step_keys};
use crate::words::{gathered, gathered_values, spread};
use std::simd::u32x8 as Words;

// `a` in the lanes whose step is below the last, and `b` in the others.
#[inline(always)]
pub(crate) fn chosen(steps: Words, to: Words, a: Words, b: Words) -> Words
    ensures { (j : ℕ) → j < 8 → slice_index result j
        ≡ cond (ltb (slice_index steps j) (slice_index to j)) (slice_index a j) (slice_index b j) }
{
    steps.simd_lt(to).select(a, b)
}

#[inline(always)]
fn chosen_values(steps: Words, to: Words, a: [Words; 8], b: [Words; 8]) -> [Words; 8]
    ensures { (j : ℕ) → j < 8 → lane j result
        ≡ cond (ltb (slice_index steps j) (slice_index to j)) (lane j a) (lane j b) }
{
    [
        chosen(steps, to, a[0], b[0]),
        chosen(steps, to, a[1], b[1]),
        chosen(steps, to, a[2], b[2]),
        chosen(steps, to, a[3], b[3]),
        chosen(steps, to, a[4], b[4]),
        chosen(steps, to, a[5], b[5]),
        chosen(steps, to, a[6], b[6]),
        chosen(steps, to, a[7], b[7]),
    ]
}

#[inline(always)]
fn plus_one(a: Words) -> Words
    ensures { (j : ℕ) → j < 8 → slice_index result j ≡ (slice_index a j + 1) % 2 ^ 32 }
{
    a + Words::splat(1)
}

/// Steps `from` to `to - 1` of eight chains, of which none has more than `turns`. Each lane has an identifier and a leaf
/// of its own.
pub(crate) fn run_lanes(
    ids: [Words; 4],
    q: Words,
    chains: Words,
    from: Words,
    to: Words,
    turns: u32,
    start: [Words; 8],
    room: &mut Room,
) -> [Words; 8]
    requires chains { (j : ℕ) → j < 8 → slice_index chains j < 2 ^ 16 }
    requires order { (j : ℕ) → j < 8 → slice_index from j ≤ slice_index to j }
    requires top { (j : ℕ) → j < 8 → slice_index to j ≤ 2 ^ 8 }
    requires turns { (j : ℕ) → j < 8 → slice_index to j ≤ slice_index from j + turns }
    ensures { (j : ℕ) → j < 8 → digest_bytes (lane j result) 8
        ≡ chain (digest_bytes (id_lane j ids) 4) (slice_index q j) (slice_index chains j) (slice_index from j)
        (slice_index to j - slice_index from j) (digest_bytes (lane j start) 8) }
{
    let begun = begun_keys(ids, q);
    let mut v = start;
    let mut steps = from;
    'turns: for turn in 0..turns {
        // A lane that is done has no step of its own: its block is that of step 0, and counts for nothing.
        let now = chosen(steps, to, steps, Words::splat(0));
        let next = step_keys(begun, ids, q, chains, now, v, room);
        let kept = chosen_values(steps, to, next, v);
        let later = chosen(steps, to, plus_one(steps), steps);
        v = kept;
        steps = later;
    }
    v
}

/// The most steps that one of eight chains has.
pub(crate) fn most_steps(from: &[u16], to: &[u16], group: &[u16; 8]) -> u32
    requires from { (j : ℕ) → j < 8 → slice_index group.now j < length from.now }
    requires to { (j : ℕ) → j < 8 → slice_index group.now j < length to.now }
    ensures { (j : ℕ) → j < 8 → slice_index to.now (slice_index group.now j)
        ≤ slice_index from.now (slice_index group.now j) + result }
{
    let mut most = 0u16;
    'lanes: for j in 0..8usize {
        let i = usize::from(group[j]);
        most = most.max(to[i].saturating_sub(from[i]));
    }
    u32::from(most)
}

// The ends of eight chains, by their numbers.
pub(crate) fn group_ends(
    id: &[u32; 4],
    q: u32,
    from: &[u16],
    to: &[u16],
    starts: &[u8],
    group: &[u16; 8],
    room: &mut Room,
) -> [Words; 8]
    requires steps { AreSteps from.now to.now }
    requires starts { 32 * length from.now ≤ length starts.now }
    requires group { (j : ℕ) → j < 8 → slice_index group.now j < length from.now }
    ensures { (j : ℕ) → j < 8 → digest_bytes (lane j result) 8
        ≡ end_of (digest_bytes id.now 4) q from.now to.now starts.now (slice_index group.now j) }
{
    let turns = most_steps(from, to, group);
    let start = gathered_values(starts, group);
    run_lanes(
        same_id(id),
        splat(q),
        spread(group),
        gathered(from, group),
        gathered(to, group),
        turns,
        start,
        room,
    )
}
