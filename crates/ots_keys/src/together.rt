// Three signatures at once.

ghost use Rattle.std.specs.Prelude.{◌≡◌, ℕ, ◌+◌, ◌*◌, ◌/◌, ◌%◌, ◌<◌, ◌≤◌, [], length, slice_index, slice_index_or};
ghost use Rattle.lane_chains.specs.Chains.{value_at};
ghost use Rattle.lane_chains.specs.Three.{of_three};
ghost use Rattle.ots_keys.specs.Parameters.{chains, signature_len};
ghost use Rattle.ots_keys.specs.Keys.{message_hash, randomizer_in, candidate};

use crate::digits::digits_of;
use crate::keys::{D_MESG, D_PBLC, finished_key};
use crate::parameters::Ots;
use lane_chains::{
    KeyAt, MOST_CHAINS, VALUES_LEN, hash_parts, read_value, three_keys, write_value,
};

/// A message, and what is said to be its signature by a one-time key.
#[derive(Drop)]
pub struct OtsSigned<'a> {
    pub key: KeyAt,
    pub message: &'a [u8],
    pub sig: &'a [u8],
}

// The hash that is signed.
fn signed_hash(signed: &OtsSigned<'_>) -> [u8; 32]
    requires { 36 ≤ length signed.now.sig.now }
    ensures { result ≡ message_hash signed.now.key.id signed.now.key.q (randomizer_in signed.now.sig.now) signed.now.message.now }
{
    hash_parts(
        &signed.key.id,
        signed.key.q,
        D_MESG,
        &signed.sig[4..36],
        signed.message,
    )
}

// One of three lists.
fn list_of<'a>(
    x: &'a [u16; MOST_CHAINS],
    y: &'a [u16; MOST_CHAINS],
    z: &'a [u16; MOST_CHAINS],
    k: usize,
) -> &'a [u16; MOST_CHAINS]
    ensures { result.now ≡ of_three x.now y.now z.now k }
{
    match k {
        0 => x,
        1 => y,
        _ => z,
    }
}

// One of three texts.
fn text_of<'a>(x: &'a [u8], y: &'a [u8], z: &'a [u8], k: usize) -> &'a [u8]
    ensures { result.now ≡ of_three x.now y.now z.now k }
{
    match k {
        0 => x,
        1 => y,
        _ => z,
    }
}

// The digits of three hashes in turn.
fn digits_in_turn(
    x: &[u16; MOST_CHAINS],
    y: &[u16; MOST_CHAINS],
    z: &[u16; MOST_CHAINS],
) -> [u16; MOST_CHAINS]
    ensures { (n : ℕ) → n < 265 → slice_index result n ≡ slice_index (of_three x.now y.now z.now (n % 3)) (n / 3) }
{
    let mut all = [0u16; MOST_CHAINS];
    'places: for n in 0..MOST_CHAINS {
        let list = list_of(x, y, z, n % 3);
        all[n] = list[n / 3];
    }
    all
}

// The values of three texts in turn, `count` of each.
fn values_in_turn(x: &[u8], y: &[u8], z: &[u8], count: u16) -> [u8; VALUES_LEN]
    requires few { 3 * count ≤ 265 }
    requires x { 32 * count ≤ length x.now }
    requires y { 32 * count ≤ length y.now }
    requires z { 32 * count ≤ length z.now }
    ensures { (n : ℕ) → n < 3 * count → value_at result n ≡ value_at (of_three x.now y.now z.now (n % 3)) (n / 3) }
{
    let mut all = [0; VALUES_LEN];
    'places: for n in 0..3 * usize::from(count) {
        let text = text_of(x, y, z, n % 3);
        let value = read_value(text, n / 3);
        write_value(&mut all, n, &value);
    }
    all
}

// The keys that three signatures end in, their chains all together.
fn keys_together(ots: Ots, a: &OtsSigned<'_>, b: &OtsSigned<'_>, c: &OtsSigned<'_>) -> [[u8; 32]; 3]
    requires odd { chains ots % 2 ≡ 1 }
    requires few { 3 * chains ots ≤ 265 }
    requires a { length a.now.sig.now ≡ signature_len ots }
    requires b { length b.now.sig.now ≡ signature_len ots }
    requires c { length c.now.sig.now ≡ signature_len ots }
    ensures { (k : ℕ) → k < 3 → slice_index_or result k []
        ≡ candidate ots (of_three a.now b.now c.now k).key.id (of_three a.now b.now c.now k).key.q
        (of_three a.now b.now c.now k).message.now (of_three a.now b.now c.now k).sig.now }
{
    let count = ots.chains();
    let all = 3 * usize::from(count);
    let x = digits_of(ots, &signed_hash(a));
    let y = digits_of(ots, &signed_hash(b));
    let z = digits_of(ots, &signed_hash(c));
    let from = digits_in_turn(&x, &y, &z);
    let top = u16::from(ots.top_digit());
    let to = [top; MOST_CHAINS];
    let starts = values_in_turn(&a.sig[36..], &b.sig[36..], &c.sig[36..], count);
    three_keys(
        &a.key,
        &b.key,
        &c.key,
        D_PBLC,
        count,
        &from[..all],
        &to[..all],
        &starts,
    )
}

// The key that a signature ends in.
fn key_alone(ots: Ots, signed: &OtsSigned<'_>) -> [u8; 32]
    requires { length signed.now.sig.now ≡ signature_len ots }
    ensures { result ≡ candidate ots signed.now.key.id signed.now.key.q signed.now.message.now signed.now.sig.now }
{
    let hash = signed_hash(signed);
    finished_key(ots, &signed.key.id, signed.key.q, &hash, signed.sig)
}

/// The public keys that signed three messages, if the signatures are right: each as `ots_candidate` gives it. They are found
/// together where the number of chains is odd and at most 88, as it is for digits of 4 bits. It takes no memory.
pub fn ots_candidates(
    ots: Ots,
    a: &OtsSigned<'_>,
    b: &OtsSigned<'_>,
    c: &OtsSigned<'_>,
) -> [[u8; 32]; 3]
    requires a { length a.now.sig.now ≡ signature_len ots }
    requires b { length b.now.sig.now ≡ signature_len ots }
    requires c { length c.now.sig.now ≡ signature_len ots }
    ensures { (k : ℕ) → k < 3 → slice_index_or result k []
        ≡ candidate ots (of_three a.now b.now c.now k).key.id (of_three a.now b.now c.now k).key.q
        (of_three a.now b.now c.now k).message.now (of_three a.now b.now c.now k).sig.now }
{
    let count = ots.chains();
    if count % 2 == 1 && count <= 88 {
        return keys_together(ots, a, b, c);
    }
    [key_alone(ots, a), key_alone(ots, b), key_alone(ots, c)]
}
