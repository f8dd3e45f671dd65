// Three signatures at once.

ghost use Rattle.std.specs.Prelude.{◌≡◌, ◌↔◌, IsTrue};
ghost use Rattle.tree_keys.specs.PublicKeys.{IsTreeHeight, LeadsToRoot, HasParts, IsSignedUnder};

use crate::public_key::{Parts, PublicKey};
use ots_keys::{KeyAt, OtsSigned, ots_candidates, ots_form};

/// A message, and what is said to be its signature by a key.
#[derive(Drop)]
pub struct TreeSigned<'a> {
    pub key: PublicKey,
    pub message: &'a [u8],
    pub sig: &'a [u8],
}

// The one-time signature of a message.
fn ots_signed<'a>(signed: &TreeSigned<'a>, parts: &Parts<'a>) -> OtsSigned<'a>
    ensures id { result.key.id ≡ signed.now.key.id }
    ensures leaf { result.key.q ≡ parts.now.q }
    ensures message { result.message.now ≡ signed.now.message.now }
    ensures sig { result.sig.now ≡ parts.now.ots_sig.now }
{
    OtsSigned {
        key: KeyAt {
            id: signed.key.id,
            q: parts.q,
        },
        message: signed.message,
        sig: parts.ots_sig,
    }
}

// Whether three keys have one-time keys of one type.
fn have_one_type(a: &PublicKey, b: &PublicKey, c: &PublicKey) -> bool
    ensures second { IsTrue result → b.now.ots ≡ a.now.ots }
    ensures third { IsTrue result → c.now.ots ≡ a.now.ots }
{
    if b.ots != a.ots {
        return false;
    }
    c.ots == a.ots
}

// Whether three signatures are right, one after the other.
fn verify_each(a: &TreeSigned<'_>, b: &TreeSigned<'_>, c: &TreeSigned<'_>) -> bool
    requires a { IsTreeHeight a.now.key.height }
    requires b { IsTreeHeight b.now.key.height }
    requires c { IsTreeHeight c.now.key.height }
    ensures { IsTrue result ↔ (IsSignedUnder a.now.key a.now.message.now a.now.sig.now
        × IsSignedUnder b.now.key b.now.message.now b.now.sig.now × IsSignedUnder c.now.key c.now.message.now c.now.sig.now) }
{
    if !a.key.verify(a.message, a.sig) {
        return false;
    }
    if !b.key.verify(b.message, b.sig) {
        return false;
    }
    c.key.verify(c.message, c.sig)
}

// Whether the parts of three signatures lead to the roots, where the one-time keys have one type.
fn lead_together(
    a: &TreeSigned<'_>,
    b: &TreeSigned<'_>,
    c: &TreeSigned<'_>,
    x: &Parts<'_>,
    y: &Parts<'_>,
    z: &Parts<'_>,
) -> bool
    requires second { b.now.key.ots ≡ a.now.key.ots }
    requires third { c.now.key.ots ≡ a.now.key.ots }
    requires a { IsTreeHeight a.now.key.height }
    requires b { IsTreeHeight b.now.key.height }
    requires c { IsTreeHeight c.now.key.height }
    requires x { HasParts a.now.key a.now.sig.now x.now.q x.now.ots_sig.now x.now.path.now }
    requires y { HasParts b.now.key b.now.sig.now y.now.q y.now.ots_sig.now y.now.path.now }
    requires z { HasParts c.now.key c.now.sig.now z.now.q z.now.ots_sig.now z.now.path.now }
    ensures { IsTrue result ↔ (LeadsToRoot a.now.key x.now.q a.now.message.now x.now.ots_sig.now x.now.path.now
        × LeadsToRoot b.now.key y.now.q b.now.message.now y.now.ots_sig.now y.now.path.now
        × LeadsToRoot c.now.key z.now.q c.now.message.now z.now.ots_sig.now z.now.path.now) }
{
    let ots = a.key.ots;
    if !ots_form(ots, x.ots_sig) {
        return false;
    }
    if !ots_form(ots, y.ots_sig) {
        return false;
    }
    if !ots_form(ots, z.ots_sig) {
        return false;
    }
    let first = ots_signed(a, x);
    let second = ots_signed(b, y);
    let third = ots_signed(c, z);
    let keys = ots_candidates(ots, &first, &second, &third);
    if !a.key.climbs(x, &keys[0]) {
        return false;
    }
    if !b.key.climbs(y, &keys[1]) {
        return false;
    }
    c.key.climbs(z, &keys[2])
}

/// Whether three signatures are right, each as `PublicKey::verify` says it. Their one-time keys are found together, which is
/// cheaper. It takes no memory.
pub fn verify_three(a: &TreeSigned<'_>, b: &TreeSigned<'_>, c: &TreeSigned<'_>) -> bool
    requires a { IsTreeHeight a.now.key.height }
    requires b { IsTreeHeight b.now.key.height }
    requires c { IsTreeHeight c.now.key.height }
    ensures { IsTrue result ↔ (IsSignedUnder a.now.key a.now.message.now a.now.sig.now
        × IsSignedUnder b.now.key b.now.message.now b.now.sig.now × IsSignedUnder c.now.key c.now.message.now c.now.sig.now) }
{
    if !have_one_type(&a.key, &b.key, &c.key) {
        return verify_each(a, b, c);
    }
    let Some(x) = a.key.parts(a.sig) else {
        return false;
    };
    let Some(y) = b.key.parts(b.sig) else {
        return false;
    };
    let Some(z) = c.key.parts(c.sig) else {
        return false;
    };
    lead_together(a, b, c, &x, &y, &z)
}
