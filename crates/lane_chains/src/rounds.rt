// The rounds of FIPS 180-4, section 6.2.2, in each lane.
//
// The blocks' words lie in memory from the first to the last. Eight rounds are written out, after which each working
// variable is back at its place: so the variables stay in registers, where they fit.

ghost use Rattle.std.specs.Prelude.{◌≡◌, ℕ, ◌<◌, ◌≤◌, ◌+◌, ◌*◌, List, slice_index, slice_set};
ghost use Rattle.sha2.specs.Sha256.{add_state, compress, initial_hash_256, next_word, round, round_constants, rounds, schedule, word_at};
ghost use Rattle.lane_chains.specs.Lanes.{lane, column};

use crate::lanes::{add, big_sigma0, big_sigma1, ch, maj, small_sigma0, small_sigma1, splat};
use std::simd::u32x8 as Words;

/// Where the words of eight blocks stand. What it holds before a step counts for nothing: it is handed on so that no step
/// lays it out anew.
pub(crate) type Room = [Words; 64];

/// A room with nothing in it.
pub(crate) fn new_room() -> Room {
    [splat(0); 64]
}

// The round constants (section 4.2.2).
pub(crate) const K32: [u32; 64] = [
    0x428a_2f98,
    0x7137_4491,
    0xb5c0_fbcf,
    0xe9b5_dba5,
    0x3956_c25b,
    0x59f1_11f1,
    0x923f_82a4,
    0xab1c_5ed5,
    0xd807_aa98,
    0x1283_5b01,
    0x2431_85be,
    0x550c_7dc3,
    0x72be_5d74,
    0x80de_b1fe,
    0x9bdc_06a7,
    0xc19b_f174,
    0xe49b_69c1,
    0xefbe_4786,
    0x0fc1_9dc6,
    0x240c_a1cc,
    0x2de9_2c6f,
    0x4a74_84aa,
    0x5cb0_a9dc,
    0x76f9_88da,
    0x983e_5152,
    0xa831_c66d,
    0xb003_27c8,
    0xbf59_7fc7,
    0xc6e0_0bf3,
    0xd5a7_9147,
    0x06ca_6351,
    0x1429_2967,
    0x27b7_0a85,
    0x2e1b_2138,
    0x4d2c_6dfc,
    0x5338_0d13,
    0x650a_7354,
    0x766a_0abb,
    0x81c2_c92e,
    0x9272_2c85,
    0xa2bf_e8a1,
    0xa81a_664b,
    0xc24b_8b70,
    0xc76c_51a3,
    0xd192_e819,
    0xd699_0624,
    0xf40e_3585,
    0x106a_a070,
    0x19a4_c116,
    0x1e37_6c08,
    0x2748_774c,
    0x34b0_bcb5,
    0x391c_0cb3,
    0x4ed8_aa4a,
    0x5b9c_ca4f,
    0x682e_6ff3,
    0x748f_82ee,
    0x78a5_636f,
    0x84c8_7814,
    0x8cc7_0208,
    0x90be_fffa,
    0xa450_6ceb,
    0xbef9_a3f7,
    0xc671_78f2,
];

// The initial hash value (section 5.3.3) in each lane.
#[inline(always)]
pub(crate) fn first_state() -> [Words; 8]
    ensures { (j : ℕ) → j < 8 → lane j result ≡ initial_hash_256 }
{
    [
        splat(0x6a09_e667),
        splat(0xbb67_ae85),
        splat(0x3c6e_f372),
        splat(0xa54f_f53a),
        splat(0x510e_527f),
        splat(0x9b05_688c),
        splat(0x1f83_d9ab),
        splat(0x5be0_cd19),
    ]
}

#[inline(always)]
pub(crate) fn round(v: [Words; 8], k: u32, word: Words) -> [Words; 8]
    ensures { (j : ℕ) → j < 8 → lane j result ≡ round (lane j v) k (slice_index word j) }
{
    let [a, b, c, d, e, f, g, h] = v;
    let temp1 = add(add(add(add(h, big_sigma1(e)), ch(e, f, g)), splat(k)), word);
    let temp2 = add(big_sigma0(a), maj(a, b, c));
    [add(temp1, temp2), a, b, c, add(d, temp1), e, f, g]
}

// Word `t` of the blocks, from those before it.
#[inline(always)]
fn put_word(room: &mut Room, t: usize)
    requires low { 16 ≤ t }
    requires high { t < 64 }
    ensures { (j : ℕ) → j < 8 → column j room.new ≡ slice_set (column j room.old) t (next_word (column j room.old) t) }
{
    room[t] = add(
        add(
            add(small_sigma1(room[t - 2]), room[t - 7]),
            small_sigma0(room[t - 15]),
        ),
        room[t - 16],
    );
}

// Copies the blocks' own words.
#[inline(always)]
fn put_block(room: &mut Room, block: [Words; 16])
    ensures { (j k : ℕ) → k < 16 → slice_index (column j room.new) k ≡ slice_index (column j block) k }
{
    'words: for k in 0..16usize {
        room[k] = block[k];
    }
}

// Eight words more, from word `t` on.
#[inline(always)]
fn put_words(room: &mut Room, t: usize)
    requires low { 16 ≤ t }
    requires high { t + 8 ≤ 64 }
    ensures { (j : ℕ) → j < 8 → (b : List ℕ) → ((k : ℕ) → k < t → slice_index (column j room.old) k ≡ slice_index (schedule b 48) k)
        → (k : ℕ) → k < t + 8 → slice_index (column j room.new) k ≡ slice_index (schedule b 48) k }
{
    put_word(room, t);
    put_word(room, t + 1);
    put_word(room, t + 2);
    put_word(room, t + 3);
    put_word(room, t + 4);
    put_word(room, t + 5);
    put_word(room, t + 6);
    put_word(room, t + 7);
}

// The rounds `t` to `t + 7`.
#[inline(always)]
fn run_eight(room: &Room, v: [Words; 8], t: usize) -> [Words; 8]
    requires { t + 8 ≤ 64 }
    ensures { (j : ℕ) → j < 8 → (b h : List ℕ) → ((k : ℕ) → k < t + 8 → slice_index (column j room.now) k ≡ slice_index (schedule b 48) k)
        → lane j v ≡ rounds h (schedule b 48) t → lane j result ≡ rounds h (schedule b 48) (t + 8) }
{
    let v = round(v, K32[t], room[t]);
    let v = round(v, K32[t + 1], room[t + 1]);
    let v = round(v, K32[t + 2], room[t + 2]);
    let v = round(v, K32[t + 3], room[t + 3]);
    let v = round(v, K32[t + 4], room[t + 4]);
    let v = round(v, K32[t + 5], room[t + 5]);
    let v = round(v, K32[t + 6], room[t + 6]);
    round(v, K32[t + 7], room[t + 7])
}

// The sixth round, the seventh and the eighth.
#[inline(always)]
fn run_three(room: &Room, v: [Words; 8]) -> [Words; 8]
    ensures { (j : ℕ) → j < 8 → (b h : List ℕ) → ((k : ℕ) → k < 16 → slice_index (column j room.now) k ≡ slice_index (schedule b 48) k)
        → lane j v ≡ rounds h (schedule b 48) 5 → lane j result ≡ rounds h (schedule b 48) 8 }
{
    let v = round(v, K32[5], room[5]);
    let v = round(v, K32[6], room[6]);
    round(v, K32[7], room[7])
}

// The rounds from the sixth on, where `begun` has the working variables that the first five left.
#[inline(always)]
fn run_rounds(room: &mut Room, begun: [Words; 8]) -> [Words; 8]
    ensures { (j : ℕ) → j < 8 → (b h : List ℕ) → ((k : ℕ) → k < 16 → slice_index (column j room.old) k ≡ slice_index (schedule b 48) k)
        → lane j begun ≡ rounds h (schedule b 48) 5 → lane j result ≡ rounds h (schedule b 48) 64 }
{
    let mut v = run_three(room, begun);
    'turns: for turn in 1..7usize {
        put_words(room, 8 * turn + 8);
        let next = run_eight(room, v, 8 * turn);
        v = next;
    }
    run_eight(room, v, 56)
}

#[inline(always)]
fn sums(h: [Words; 8], v: [Words; 8]) -> [Words; 8]
    ensures { (j : ℕ) → j < 8 → lane j result ≡ add_state (lane j h) (lane j v) }
{
    [
        add(h[0], v[0]),
        add(h[1], v[1]),
        add(h[2], v[2]),
        add(h[3], v[3]),
        add(h[4], v[4]),
        add(h[5], v[5]),
        add(h[6], v[6]),
        add(h[7], v[7]),
    ]
}

// The hash value after a first block, in each lane: `block` has the blocks' words, of whose rounds
// `begun` has done five.
#[inline(always)]
pub(crate) fn compressed(begun: [Words; 8], block: [Words; 16], room: &mut Room) -> [Words; 8]
    ensures { (j : ℕ) → j < 8 → (b : List ℕ) → ((k : ℕ) → k < 16 → slice_index (column j block) k ≡ word_at b (4 * k))
        → lane j begun ≡ rounds initial_hash_256 (schedule b 48) 5 → lane j result ≡ compress initial_hash_256 b }
{
    put_block(room, block);
    sums(first_state(), run_rounds(room, begun))
}

// The working variables after the first five rounds of a block.
#[inline(always)]
fn first_five(h: [Words; 8], block: [Words; 16]) -> [Words; 8]
    ensures { (j : ℕ) → j < 8 → (b : List ℕ) → ((k : ℕ) → k < 16 → slice_index (column j block) k ≡ word_at b (4 * k))
        → lane j result ≡ rounds (lane j h) (schedule b 48) 5 }
{
    let v = round(h, K32[0], block[0]);
    let v = round(v, K32[1], block[1]);
    let v = round(v, K32[2], block[2]);
    let v = round(v, K32[3], block[3]);
    round(v, K32[4], block[4])
}

/// The hash values after one block more, in each lane: `h` has those before it, and `block` the blocks' words.
#[inline(always)]
pub(crate) fn compressed_after(h: [Words; 8], block: [Words; 16], room: &mut Room) -> [Words; 8]
    ensures { (j : ℕ) → j < 8 → (b : List ℕ) → ((k : ℕ) → k < 16 → slice_index (column j block) k ≡ word_at b (4 * k))
        → lane j result ≡ compress (lane j h) b }
{
    put_block(room, block);
    sums(h, run_rounds(room, first_five(h, block)))
}
