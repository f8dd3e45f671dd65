ghost use Rattle.std.specs.Prelude.{◌≡◌, nat_eq};
ghost use Rattle.protocol_rules.specs.Group.{Group, leader_of};

use quorum_sets::Sizes;

/// Whether the master leads the view.
pub(crate) fn is_leader(sizes: &Sizes, me: u32, view: u64) -> bool
    ensures { (g : Group) → sizes.now.n ≡ g.n → result ≡ nat_eq me (leader_of g view) }
{
    u64::from(me) == view % u64::from(sizes.n)
}
