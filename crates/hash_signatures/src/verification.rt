ghost use Rattle.std.specs.Prelude.{◌↔◌, ℕ, suc, List, IsTrue, IfSome, MatchOption};
ghost use Rattle.tree_keys.specs.PublicKeys.{IsTreeHeight, IsSignedUnder};
ghost use Rattle.hash_signatures.specs.Verification.{LeadsThrough, Verifies};

use tree_keys::{PublicKey, TreeSigned, number_of, tree_verify, verify_three};

/// How signed keys are verified: each anew, or by what is known of them.
pub trait KeyCheck {
    /// Whether the bytes `signed` are the key's signature of the key below it, whose bytes are `next`. So many signed keys
    /// follow in the signature.
    fn signs(&mut self, below: u32, key: &PublicKey, next: &[u8], signed: &[u8]) -> bool
        requires { IsTreeHeight key.now.height }
        ensures { IsTrue result ↔ IsSignedUnder key.now next.now signed.now };

    /// Whether all levels of a signature are to be verified at once, which is cheaper where none of them is known.
    fn at_once(&self) -> bool;
}

/// Each signed key is verified anew.
#[derive(Drop)]
pub struct Anew;

impl KeyCheck for Anew {
    fn signs(&mut self, _below: u32, key: &PublicKey, next: &[u8], signed: &[u8]) -> bool {
        key.verify(next, signed)
    }

    fn at_once(&self) -> bool {
        true
    }
}

/// Whether the bytes of a public key verify the bytes of a signature of the message. Any other bytes
/// are `false`. It takes no memory.
pub fn verify(public: &[u8], message: &[u8], sig: &[u8]) -> bool
    ensures { IsTrue result ↔ Verifies public.now message.now sig.now }
{
    verify_by(&mut Anew, public, message, sig)
}

/// As `verify`, with the signed keys verified by `check`.
pub fn verify_by<C: KeyCheck>(check: &mut C, public: &[u8], message: &[u8], sig: &[u8]) -> bool
    ensures { IsTrue result ↔ Verifies public.now message.now sig.now }
{
    if public.len() < 4 {
        return false;
    }
    if sig.len() < 4 {
        return false;
    }
    let (level_bytes, key) = public.split_at(4);
    let (count_bytes, rest) = sig.split_at(4);
    let levels = number_of(level_bytes);
    let count = number_of(count_bytes);
    if levels == 0 || levels > 8 {
        return false;
    }
    if count != levels - 1 {
        return false;
    }
    leads_by(check, count, key, message, rest)
}

// As `leads_through`, three levels at once if the check wants it.
fn leads_by<C: KeyCheck>(check: &mut C, n: u32, public: &[u8], message: &[u8], sig: &[u8]) -> bool
    ensures { IsTrue result ↔ LeadsThrough n public.now message.now sig.now }
{
    if n == 2 && check.at_once() {
        return leads_through_two(public, message, sig);
    }
    leads_through(check, n, public, message, sig)
}

// A signed key, and what stands behind it.
#[derive(Drop)]
struct Level<'a> {
    key: PublicKey,
    signed: &'a [u8],
    next: &'a [u8],
    rest: &'a [u8],
}

// The first signed key of a signature, if there is one.
fn first_level<'a>(public: &[u8], sig: &'a [u8]) -> Option<Level<'a>>
    ensures height { IfSome result (λ level. IsTreeHeight level.key.height) }
    ensures level { MatchOption result ((n : ℕ) → (message : List ℕ) → LeadsThrough (suc n) public.now message sig.now → ⊥)
        (λ level. (n : ℕ) → (message : List ℕ) → LeadsThrough (suc n) public.now message sig.now
        ↔ (IsSignedUnder level.key level.next.now level.signed.now × LeadsThrough n level.next.now message level.rest.now)) }
{
    let Some(key) = PublicKey::read(public) else {
        return None;
    };
    let len = key.signature_len();
    if sig.len() < len + 56 {
        return None;
    }
    let (signed, rest) = sig.split_at(len);
    let (next, rest) = rest.split_at(56);
    Some(Level {
        key,
        signed,
        next,
        rest,
    })
}

// Whether an LMS public key verifies the signature through two signed keys, all three levels at once.
fn leads_through_two(public: &[u8], message: &[u8], sig: &[u8]) -> bool
    ensures { IsTrue result ↔ LeadsThrough 2 public.now message.now sig.now }
{
    let Some(first) = first_level(public, sig) else {
        return false;
    };
    let Some(second) = first_level(first.next, first.rest) else {
        return false;
    };
    let Some(key) = PublicKey::read(second.next) else {
        return false;
    };
    let a = TreeSigned {
        key: first.key,
        message: first.next,
        sig: first.signed,
    };
    let b = TreeSigned {
        key: second.key,
        message: second.next,
        sig: second.signed,
    };
    let c = TreeSigned {
        key,
        message,
        sig: second.rest,
    };
    verify_three(&a, &b, &c)
}

// Whether an LMS public key verifies the signature through `n` signed keys.
fn leads_through<C: KeyCheck>(
    check: &mut C,
    n: u32,
    public: &[u8],
    message: &[u8],
    sig: &[u8],
) -> bool
    ensures { IsTrue result ↔ LeadsThrough n public.now message.now sig.now }
{
    if n == 0 {
        return tree_verify(public, message, sig);
    }
    let Some(level) = first_level(public, sig) else {
        return false;
    };
    if !check.signs(n - 1, &level.key, level.next, level.signed) {
        return false;
    }
    leads_through(check, n - 1, level.next, message, level.rest)
}
