ghost use Rattle.std.specs.Prelude.{◌≡◌, ◌≤◌, ℕ, length, Option, Some, None, if◌then◌else◌, nat_eq, nat_lt, ◌&&◌, not, OnOk, OnErr};
ghost use Rattle.std.specs.List.{list_any, position_or_len};
ghost use Rattle.std.specs.Option.{option_or};
ghost use Rattle.blame_check.specs.declared.pairs.Named.{Named as Pair};
ghost use Rattle.blame_check.specs.Contradictions.{pair_of, rising, IsOwnPair};

use message_types::Frame;
use plain_lists::{Copied, Want};

/// A master with two signed words of its own that contradict each other, the earlier one first.
pub struct Named {
    pub master: u32,
    pub first: Frame,
    pub second: Frame,
}

// Taken apart here once, so that no crate above proves it again.
impl Drop for Named {
    fn drop(self) {
        let Named {
            master: _,
            first: _,
            second: _,
        } = self;
    }
}

/// Whether the master is among those named.
pub fn is_named(pairs: &[Named], master: u32) -> bool
    ensures { result ≡ list_any (λ x. nat_eq x.master master) pairs.now }
{
    for pair in pairs {
        if pair.master == master {
            return true;
        }
    }
    false
}

// Whether the master is one of so many, and isn't named yet.
fn is_new(pairs: &[Named], masters: u32, master: u32) -> bool
    ensures { result ≡ (nat_lt master masters && not (list_any (λ x. nat_eq x.master master) pairs.now)) }
{
    master < masters && !is_named(pairs, master)
}

// Where a master's pair goes, among pairs of rising masters.
fn place_of(pairs: &[Named], master: u32) -> usize
    ensures place { result ≡ position_or_len (λ x. nat_lt master x.master) pairs.now }
    ensures within { result ≤ length pairs.now }
{
    for (place, pair) in pairs.iter().enumerate() {
        if master < pair.master {
            return place;
        }
    }
    pairs.len()
}

/// Names the signer of the second word, unless it is named already or isn't one of so many masters.
pub fn name(pairs: &mut Vec<Named>, masters: u32, first: &Frame, second: Frame) -> Result<(), Want>
    ensures named { OnOk result ((pair : ℕ → Option Pair) → ((m : ℕ) → IsOwnPair m (pair m)) → pairs.old.items ≡ rising pair masters
        → pairs.new.items ≡ rising (λ m. option_or (pair m) (if nat_eq second.signer m then Some (pair_of first.now second) else None)) masters) }
    ensures stays { OnErr result (pairs.new.items ≡ pairs.old.items) }
{
    let master = second.signer;
    if !is_new(pairs.as_slice(), masters, master) {
        return Ok(());
    }
    let place = place_of(pairs.as_slice(), master);
    let pair = Named {
        master,
        first: first.copy()?,
        second,
    };
    pairs.insert(place, pair)?;
    Ok(())
}
