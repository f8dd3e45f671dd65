// The functions of FIPS 180-4, section 4.1.2, in each lane.

ghost use Rattle.std.specs.Prelude.{◌≡◌, ℕ, ◌<◌, ◌+◌, ◌*◌, ◌/◌, ◌%◌, ◌^◌, bit_and, bit_xor, slice_index};
ghost use Rattle.std.specs.Int.{w32, rotate_right};
ghost use Rattle.sha2.specs.Sha256.{add32, big_sigma0, big_sigma1, ch, maj, small_sigma0, small_sigma1};

use std::simd::u32x8 as Words;

#[inline(always)]
pub(crate) fn add(a: Words, b: Words) -> Words
    ensures { (j : ℕ) → j < 8 → slice_index result j ≡ add32 (slice_index a j) (slice_index b j) }
{
    a + b
}

#[inline(always)]
pub(crate) fn xor(a: Words, b: Words) -> Words
    ensures { (j : ℕ) → j < 8 → slice_index result j ≡ bit_xor (slice_index a j) (slice_index b j) }
{
    a ^ b
}

#[inline(always)]
pub(crate) fn and(a: Words, b: Words) -> Words
    ensures { (j : ℕ) → j < 8 → slice_index result j ≡ bit_and (slice_index a j) (slice_index b j) }
{
    a & b
}

#[inline(always)]
pub(crate) fn splat(x: u32) -> Words
    ensures { (j : ℕ) → j < 8 → slice_index result j ≡ x }
{
    Words::splat(x)
}

#[inline(always)]
pub(crate) fn shifted_left(x: Words, k: u32) -> Words
    requires { k < 32 }
    ensures { (j : ℕ) → j < 8 → slice_index result j ≡ slice_index x j * 2 ^ k % 2 ^ 32 }
{
    x << Words::splat(k)
}

#[inline(always)]
pub(crate) fn shifted_right(x: Words, k: u32) -> Words
    requires { k < 32 }
    ensures { (j : ℕ) → j < 8 → slice_index result j ≡ slice_index x j / 2 ^ k }
{
    x >> Words::splat(k)
}

#[inline(always)]
fn rotated(x: Words, k: u32) -> Words
    requires { (0 < k) × (k < 32) }
    ensures { (j : ℕ) → j < 8 → slice_index result j ≡ rotate_right w32 (slice_index x j) k }
{
    (x >> Words::splat(k)) | (x << Words::splat(32 - k))
}

#[inline(always)]
pub(crate) fn ch(x: Words, y: Words, z: Words) -> Words
    ensures { (j : ℕ) → j < 8 → slice_index result j ≡ ch (slice_index x j) (slice_index y j) (slice_index z j) }
{
    xor(and(x, y), and(!x, z))
}

// One round's `x ^ y` is the next round's `y ^ z`, so it is computed once.
#[inline(always)]
pub(crate) fn maj(x: Words, y: Words, z: Words) -> Words
    ensures { (j : ℕ) → j < 8 → slice_index result j ≡ maj (slice_index x j) (slice_index y j) (slice_index z j) }
{
    xor(y, and(xor(x, y), xor(y, z)))
}

#[inline(always)]
pub(crate) fn big_sigma0(x: Words) -> Words
    ensures { (j : ℕ) → j < 8 → slice_index result j ≡ big_sigma0 (slice_index x j) }
{
    xor(xor(rotated(x, 2), rotated(x, 13)), rotated(x, 22))
}

#[inline(always)]
pub(crate) fn big_sigma1(x: Words) -> Words
    ensures { (j : ℕ) → j < 8 → slice_index result j ≡ big_sigma1 (slice_index x j) }
{
    xor(xor(rotated(x, 6), rotated(x, 11)), rotated(x, 25))
}

#[inline(always)]
pub(crate) fn small_sigma0(x: Words) -> Words
    ensures { (j : ℕ) → j < 8 → slice_index result j ≡ small_sigma0 (slice_index x j) }
{
    xor(xor(rotated(x, 7), rotated(x, 18)), shifted_right(x, 3))
}

#[inline(always)]
pub(crate) fn small_sigma1(x: Words) -> Words
    ensures { (j : ℕ) → j < 8 → slice_index result j ≡ small_sigma1 (slice_index x j) }
{
    xor(xor(rotated(x, 17), rotated(x, 19)), shifted_right(x, 10))
}
