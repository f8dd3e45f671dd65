ghost use Rattle.std.specs.Prelude.{◌≡◌, ◌≤◌, ◌&&◌, ℕ, List, max, if◌then◌else◌};
ghost use Rattle.indexmap.specs.IndexMap.{get, spare};
ghost use Rattle.global_order.specs.Giving.{same_order, view_in};

use indexmap::IndexMap;

/// The greatest view in which a quorum committed a number with a digest.
pub type Views = IndexMap<(u64, [u8; 32]), u64>;

/// Notes that a quorum committed a number with a digest in view `v`, if one did.
pub fn note_view(views: &mut Views, is_committed: bool, v: u64, s: u64, digest: [u8; 32])
    requires { 1 ≤ spare views.old }
    ensures { (k : ℕ × List ℕ) → view_in (get same_order views.new k) ≡ (if is_committed && same_order (s, digest) k then max (view_in (get same_order views.old k)) v else view_in (get same_order views.old k)) }
{
    if !is_committed {
        return;
    }
    let view = view_of(views, s, digest).max(v);
    views.insert((s, digest), view).unwrap();
}

/// The greatest view in which a quorum committed a number with a digest, 0 where there is none.
pub fn view_of(views: &Views, s: u64, digest: [u8; 32]) -> u64
    ensures { result ≡ view_in (get same_order views.now (s, digest)) }
{
    match views.get(&(s, digest)) {
        None => 0,
        Some(view) => *view,
    }
}
