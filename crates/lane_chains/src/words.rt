// Values in lanes and out of them.

ghost use Rattle.std.specs.Prelude.{◌≡◌, ℕ, ◌<◌, ◌≤◌, ◌+◌, ◌*◌, ◌^◌, length, slice_index};
ghost use Rattle.sha2.specs.Sha256.{digest_bytes, word_at};
ghost use Rattle.lane_chains.specs.Lanes.{lane};
ghost use Rattle.lane_chains.specs.Chains.{value_at};

use std::simd::u32x8 as Words;

/// The word at byte `i`.
pub(crate) fn load_be(bytes: &[u8], i: usize) -> u32
    requires { i + 4 ≤ length bytes.now }
    ensures { result ≡ word_at bytes.now i }
{
    u32::from_be_bytes([bytes[i], bytes[i + 1], bytes[i + 2], bytes[i + 3]])
}

// The words of a key's identifier.
pub(crate) fn id_words(id: &[u8; 16]) -> [u32; 4]
    ensures { digest_bytes result 4 ≡ id.now }
{
    [
        load_be(id, 0),
        load_be(id, 4),
        load_be(id, 8),
        load_be(id, 12),
    ]
}

// The numbers of eight chains.
pub(crate) fn spread(group: &[u16; 8]) -> Words
    ensures value { (j : ℕ) → j < 8 → slice_index result j ≡ slice_index group.now j }
    ensures fits { (j : ℕ) → j < 8 → slice_index result j < 2 ^ 16 }
{
    let mut words = [0; 8];
    'lanes: for j in 0..8usize {
        words[j] = u32::from(group[j]);
    }
    Words::from_array(words)
}

// The numbers that eight chains have in a list.
pub(crate) fn gathered(numbers: &[u16], group: &[u16; 8]) -> Words
    requires { (j : ℕ) → j < 8 → slice_index group.now j < length numbers.now }
    ensures { (j : ℕ) → j < 8 → slice_index result j ≡ slice_index numbers.now (slice_index group.now j) }
{
    let mut words = [0; 8];
    'lanes: for j in 0..8usize {
        let i = usize::from(group[j]);
        words[j] = u32::from(numbers[i]);
    }
    Words::from_array(words)
}

// Word `k` of the values of eight chains.
#[inline(always)]
fn gathered_word(values: &[u8], group: &[u16; 8], k: usize) -> Words
    requires inside { (j : ℕ) → j < 8 → 32 * slice_index group.now j + 32 ≤ length values.now }
    requires word { k < 8 }
    ensures { (j : ℕ) → j < 8 → slice_index result j ≡ word_at values.now (32 * slice_index group.now j + 4 * k) }
{
    let mut words = [0; 8];
    'lanes: for j in 0..8usize {
        let i = usize::from(group[j]);
        words[j] = load_be(values, 32 * i + 4 * k);
    }
    Words::from_array(words)
}

// The values of eight chains.
pub(crate) fn gathered_values(values: &[u8], group: &[u16; 8]) -> [Words; 8]
    requires { (j : ℕ) → j < 8 → 32 * slice_index group.now j + 32 ≤ length values.now }
    ensures { (j : ℕ) → j < 8 → digest_bytes (lane j result) 8 ≡ value_at values.now (slice_index group.now j) }
{
    [
        gathered_word(values, group, 0),
        gathered_word(values, group, 1),
        gathered_word(values, group, 2),
        gathered_word(values, group, 3),
        gathered_word(values, group, 4),
        gathered_word(values, group, 5),
        gathered_word(values, group, 6),
        gathered_word(values, group, 7),
    ]
}

// The bytes of a value.
fn value_bytes(words: [u32; 8]) -> [u8; 32]
    ensures { result ≡ digest_bytes words 8 }
{
    let mut out = [0u8; 32];
    'bytes: for i in 0..8usize {
        out[4 * i..4 * i + 4].copy_from_slice(&words[i].to_be_bytes());
    }
    out
}

// The value in a lane.
pub(crate) fn value_in(v: &[Words; 8], j: usize) -> [u8; 32]
    requires { j < 8 }
    ensures { result ≡ digest_bytes (lane j v.now) 8 }
{
    value_bytes([
        v[0].to_array()[j],
        v[1].to_array()[j],
        v[2].to_array()[j],
        v[3].to_array()[j],
        v[4].to_array()[j],
        v[5].to_array()[j],
        v[6].to_array()[j],
        v[7].to_array()[j],
    ])
}
