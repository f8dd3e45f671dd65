ghost use Rattle.std.specs.Prelude.{◌≡◌, ℕ, ◌+◌, ◌*◌, ◌^◌, ◌<◌, ◌≤◌, ◌↔◌, ◌++◌, [], length, take, slice_index_or, IsTrue, IfOk, OnOk, SomeIff};
ghost use Rattle.wire_parts.specs.Fields.{u32_bytes};
ghost use Rattle.ots_keys.specs.Parameters.{chains, signature_len};
ghost use Rattle.lane_chains.specs.Chains.{joined, value_at, end_of, AreSteps};
ghost use Rattle.ots_keys.specs.Keys.{secret, randomizer, public_key, signature, IsSignatureForm, candidate, key_of_ends, signed_element, finished_element};

use crate::digits::digits_of;
use crate::parameters::Ots;
use lane_chains::{
    MOST_CHAINS, VALUES_LEN, hash_parts, hasher_under, made_keys, run_chains, write_value,
};
use sha2::Digest;
use std::alloc::Global;
use wire_parts::{Want, put_bytes, put_u32};

pub(crate) const D_PBLC: u16 = 0x8080;

pub(crate) const D_MESG: u16 = 0x8181;

const RANDOMIZER: u16 = 0xFFFD;

fn randomizer(id: &[u8; 16], q: u32, seed: &[u8; 32]) -> [u8; 32]
    ensures { result ≡ randomizer id.now q seed.now }
{
    hash_parts(id, q, RANDOMIZER, &[0xff], seed)
}

// The private starts of the chains: a start is what step 255 makes of the seed.
fn secrets(ots: Ots, id: &[u8; 16], q: u32, seed: &[u8; 32]) -> [u8; VALUES_LEN]
    ensures { (i : ℕ) → i < chains ots → value_at result i ≡ secret id.now q seed.now i }
{
    let count = usize::from(ots.chains());
    let mut seeds = [0; VALUES_LEN];
    'seeds: for i in 0..MOST_CHAINS {
        write_value(&mut seeds, i, seed);
    }
    let from = [255u16; MOST_CHAINS];
    let to = [256u16; MOST_CHAINS];
    let mut starts = [0; VALUES_LEN];
    run_chains(id, q, &from[..count], &to[..count], &seeds, &mut starts);
    starts
}

// The key that chains end in.
fn key_of_chains(
    ots: Ots,
    id: &[u8; 16],
    q: u32,
    from: &[u16],
    to: &[u16],
    starts: &[u8],
) -> [u8; 32]
    requires steps { AreSteps from.now to.now }
    requires count { length from.now ≡ chains ots }
    requires starts { 32 * length from.now ≤ length starts.now }
    ensures { result ≡ key_of_ends ots id.now q (end_of id.now q from.now to.now starts.now) }
{
    let mut ends = [0; VALUES_LEN];
    run_chains(id, q, from, to, starts, &mut ends);
    let mut hasher = hasher_under(id, q, D_PBLC);
    hasher.update(&ends[..32 * from.len()]);
    hasher.finalize()
}

/// The public key of the one-time key pair of leaf `q`. It takes no memory.
pub fn ots_public(ots: Ots, id: &[u8; 16], q: u32, seed: &[u8; 32]) -> [u8; 32]
    ensures { result ≡ public_key ots id.now q seed.now }
{
    let count = usize::from(ots.chains());
    let last = u16::from(ots.top_digit());
    let from = [0u16; MOST_CHAINS];
    let to = [last; MOST_CHAINS];
    let starts = secrets(ots, id, q, seed);
    key_of_chains(ots, id, q, &from[..count], &to[..count], &starts)
}

// The public keys of eight leaves, one after the other.
fn publics_in_turn(ots: Ots, id: &[u8; 16], q: u32, seed: &[u8; 32]) -> [[u8; 32]; 8]
    requires { q + 8 ≤ 2 ^ 32 }
    ensures { (j : ℕ) → j < 8 → slice_index_or result j [] ≡ public_key ots id.now (q + j) seed.now }
{
    [
        ots_public(ots, id, q, seed),
        ots_public(ots, id, q + 1, seed),
        ots_public(ots, id, q + 2, seed),
        ots_public(ots, id, q + 3, seed),
        ots_public(ots, id, q + 4, seed),
        ots_public(ots, id, q + 5, seed),
        ots_public(ots, id, q + 6, seed),
        ots_public(ots, id, q + 7, seed),
    ]
}

/// The public keys of the one-time key pairs of the leaves `q` to `q + 7`. They are made side by side where the number of chains
/// is odd, as it is but for digits of 8 bits. It takes no memory.
pub fn ots_publics(ots: Ots, id: &[u8; 16], q: u32, seed: &[u8; 32]) -> [[u8; 32]; 8]
    requires { q + 8 ≤ 2 ^ 32 }
    ensures { (j : ℕ) → j < 8 → slice_index_or result j [] ≡ public_key ots id.now (q + j) seed.now }
{
    let count = ots.chains();
    if count % 2 == 0 {
        return publics_in_turn(ots, id, q, seed);
    }
    let top = u16::from(ots.top_digit());
    made_keys(id, q, D_PBLC, seed, count, top)
}

/// The signature of a message by the key pair of leaf `q`. A key pair may sign one message alone.
pub fn ots_sign(
    alloc: Global,
    ots: Ots,
    id: &[u8; 16],
    q: u32,
    seed: &[u8; 32],
    message: &[u8],
) -> Result<Vec<u8>, Want>
    ensures { IfOk result (λ sig. sig.items ≡ signature ots id.now q seed.now message.now) }
{
    let c = randomizer(id, q, seed);
    let hash = hash_parts(id, q, D_MESG, &c, message);
    let mut sig = Vec::with_capacity(alloc, ots.signature_len())?;
    put_u32(&mut sig, ots.type_code())?;
    put_bytes(&mut sig, &c)?;
    put_elements(&mut sig, ots, id, q, seed, &hash)?;
    Ok(sig)
}

// Appends the elements of the signature of what has this hash.
fn put_elements(
    sig: &mut Vec<u8>,
    ots: Ots,
    id: &[u8; 16],
    q: u32,
    seed: &[u8; 32],
    hash: &[u8; 32],
) -> Result<(), Want>
    ensures { OnOk result (sig.new.items ≡ sig.old.items
        ++ joined (signed_element ots id.now q seed.now hash.now) (chains ots)) }
{
    let count = usize::from(ots.chains());
    let from = [0u16; MOST_CHAINS];
    let to = digits_of(ots, hash);
    let starts = secrets(ots, id, q, seed);
    let mut ends = [0; VALUES_LEN];
    run_chains(id, q, &from[..count], &to[..count], &starts, &mut ends);
    put_bytes(sig, &ends[..32 * count])?;
    Ok(())
}

// Whether bytes begin with a code of 32 bits.
#[tactic(auto, unfolding(wire_parts::specs::Fields::u32_bytes))]
fn has_code(bytes: &[u8], code: u32) -> bool
    requires { 4 ≤ length bytes.now }
    ensures { IsTrue result ↔ (take 4 bytes.now ≡ u32_bytes code) }
{
    &bytes[..4] == code.to_be_bytes().as_slice()
}

/// Whether the bytes have the form of a signature of this type.
pub fn ots_form(ots: Ots, sig: &[u8]) -> bool
    ensures { IsTrue result ↔ IsSignatureForm ots sig.now }
{
    if sig.len() != ots.signature_len() {
        return false;
    }
    has_code(sig, ots.type_code())
}

/// The public key that signed the message, if the signature is right: the one that the chains of the
/// signature end in. `None` exactly where the bytes don't have the form of a signature of this type.
/// It takes no memory.
pub fn ots_candidate(
    ots: Ots,
    id: &[u8; 16],
    q: u32,
    message: &[u8],
    sig: &[u8],
) -> Option<[u8; 32]>
    ensures { SomeIff result (IsSignatureForm ots sig.now) (candidate ots id.now q message.now sig.now) }
{
    if !ots_form(ots, sig) {
        return None;
    }
    let hash = hash_parts(id, q, D_MESG, &sig[4..36], message);
    Some(finished_key(ots, id, q, &hash, sig))
}

/// The key that the chains of a signature end in, where the message has this hash.
pub(crate) fn finished_key(ots: Ots, id: &[u8; 16], q: u32, hash: &[u8; 32], sig: &[u8]) -> [u8; 32]
    requires { length sig.now ≡ signature_len ots }
    ensures { result ≡ key_of_ends ots id.now q (finished_element ots id.now q hash.now sig.now) }
{
    let count = usize::from(ots.chains());
    let top = u16::from(ots.top_digit());
    let from = digits_of(ots, hash);
    let to = [top; MOST_CHAINS];
    key_of_chains(ots, id, q, &from[..count], &to[..count], &sig[36..])
}
