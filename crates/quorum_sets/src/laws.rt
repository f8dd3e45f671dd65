ghost use Rattle.std.specs.Prelude.{◌≡◌, ◌+◌, ◌≤◌, length};
ghost use Rattle.quorum_sets.specs.Masters.{shared_masters};
ghost use Rattle.quorum_sets.specs.Quorum.{IsQuorum};
ghost use Rattle.quorum_sets.specs.declared.limits.TheConstants.{MOST_MASTERS, MASTER_PLACES, MOST_CLIENTS};
ghost use Rattle.quorum_sets.specs.declared.limits.TheConstants.{CLIENT_PLACES};

use crate::sizes::Sizes;
use crate::voters::VoterSet;

/// The number of masters that two quorums share. It is above `f`, so one of them isn't intruded where at most
/// `f` masters are. (Agreement rests on the lemma behind this one, `voters_meet`.)
pub fn meet(a: &VoterSet, b: &VoterSet, sizes: &Sizes) -> u32
    requires first { IsQuorum sizes.now.n sizes.now.q a.now }
    requires second { IsQuorum sizes.now.n sizes.now.q b.now }
    ensures number { result ≡ length (shared_masters a.now b.now sizes.now.n) }
    ensures enough { sizes.now.f + 1 ≤ result }
{
    let mut count = 0;
    for master in 0..sizes.n {
        count += u32::from(a.has(master) & b.has(master));
    }
    count
}

/// What the limits of groups are, as numbers: the code and the definitions both cite the constants.
pub fn limits()
    ensures most_masters { MOST_MASTERS ≡ 14 }
    ensures master_places { MASTER_PLACES ≡ 14 }
    ensures most_clients { MOST_CLIENTS ≡ 12 }
    ensures client_places { CLIENT_PLACES ≡ 12 }
{}
